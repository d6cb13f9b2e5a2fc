// The kinds of a constraint (document 01: a rule).
ghost use Rattle.std.specs.Prelude.{◌≤◌, length};
ghost use Rattle.format.specs.Format.{kind_at};
ghost use Rattle.format.specs.Kind.{Numbered};

use crate::constraint::kind;

// What a rule says: a case for each number of documents 01 and 02.
#[derive(Clone, Copy, Debug, PartialEq, Eq)]
pub enum Kind {
    // 0: a table, of the pairs of dishes that go together.
    Table,
    // 1: a sodium rule, a limit over two slots.
    Limit,
    // 2: a set rule, a limit over a set of slots.
    SetLimit,
}

impl Kind {
    // The kind of the rule at `at`, if some version has a kind of that number.
    pub fn at(plan: &[u8], at: usize) -> Option<Kind>
        requires { at ≤ length plan.now }
        ensures { Numbered (kind_at plan.now at) result }
    {
        match kind(plan, at) {
            0 => Some(Kind::Table),
            1 => Some(Kind::Limit),
            2 => Some(Kind::SetLimit),
            _ => None,
        }
    }
}
