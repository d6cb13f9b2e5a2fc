// The lines of the variables' domains. The plan's bytes are read by the place of the variable's section, 0 past the end.
#![tactic(auto)]

ghost use Rattle.std.specs.Prelude.{cond, [], ◌<◌};
ghost use Rattle.base.specs.Row.{is_odd};
ghost use Rattle.plan.specs.Decode.{plan_of};
ghost use Rattle.format.specs.Format.{owner_at, size_at, code_at};
ghost use Rattle.format.specs.Version.{row_words};
ghost use Rattle.buffer.specs.Taken.{Takes};
ghost use Rattle.buffer.specs.Decimal.{spaced};
ghost use Rattle.domains.specs.Lines.{listed_codes, domain_line, variable_lines};

use buffer::Text;
use format::lists::row_at;
use format::read::variable_count;
use format::version::row_words;
use reader::{byte_at, word_at};

// A code after a space, where the row's lowest bit is set.
fn push_code(text: &mut Text<'_>, row: usize, code: usize)
    ensures { Takes (cond (is_odd row) (spaced code) []) text.old text.new }
{
    if row % 2 == 1 {
        text.push_spaced(code);
    }
}

// The codes of the values whose bits the row has, each after a space.
fn push_codes(text: &mut Text<'_>, plan: &[u8], section: usize, row: usize)
    requires { section < 16777216 }
    ensures { Takes (listed_codes (size_at plan.now section) (code_at plan.now section) row) text.old text.new }
{
    let size = byte_at(plan, section + 2 + 1);
    let mut rest = row;
    for v in 0..size {
        push_code(text, rest, word_at(plan, section + 4 + 4 * v));
        rest /= 2;
    }
}

// The variable's number, its worker, a colon, the listed codes.
fn push_domain(text: &mut Text<'_>, plan: &[u8], section: usize, number: usize, row: usize)
    requires { section < 16777216 }
    ensures { Takes (domain_line number (owner_at plan.now section) (size_at plan.now section) (code_at plan.now section) row) text.old text.new }
{
    text.push_number(number);
    text.push_spaced(byte_at(plan, section + 2));
    text.push(b':');
    push_codes(text, plan, section, row);
    text.push(b'\n');
}

// The lines of all variables, in one pass over their sections.
pub fn push_domains(text: &mut Text<'_>, plan: &[u8], lists: &[u16])
    ensures { Takes (variable_lines (row_words plan.now) (plan_of plan.now) lists.now) text.old text.new }
{
    let words = row_words(plan);
    let mut section = 3 + word_at(plan, 1);
    for x in 0..variable_count(plan) {
        push_domain(text, plan, section, x + 1, row_at(lists, words, x));
        section += 2 + word_at(plan, section);
    }
}
