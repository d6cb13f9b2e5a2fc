// The parts of a constraint (document 01: a rule), read by the place of its section.
ghost use Rattle.std.specs.Prelude.{◌≡◌, suc, ◌+◌, ◌<◌, ◌≤◌, length};
ghost use Rattle.format.specs.Version.{row_words, row_bytes};
ghost use Rattle.format.specs.Format.{first_at, second_at, kind_at, table_row_start, rows_room, table_row_at, table_byte_at, limit_at, further_count, scope_at};

use crate::kind::Kind;
use crate::limits::WORD_BYTES;
use crate::words::of_words;
use reader::{byte_at, byte_inside, word_at};

// A rule's first slot.
pub fn first(plan: &[u8], at: usize) -> usize
    requires { at ≤ length plan.now }
    ensures { (result ≡ first_at plan.now at) × (result < 256) }
{
    byte_at(plan, at + 2)
}

// A rule's second slot.
pub fn second(plan: &[u8], at: usize) -> usize
    requires { at ≤ length plan.now }
    ensures { (result ≡ second_at plan.now at) × (result < 256) }
{
    byte_at(plan, at + 2 + 1)
}

// A rule's kind.
pub fn kind(plan: &[u8], at: usize) -> usize
    requires { at ≤ length plan.now }
    ensures { (result ≡ kind_at plan.now at) × (result < 256) }
{
    byte_at(plan, at + 2 + 2)
}

// Where a table's row for a dish of its first slot starts. How many words a row has is told by whoever reads several rows.
fn table_row_start(plan: &[u8], words: usize, at: usize, v: usize) -> usize
    requires { (words ≡ row_words plan.now) × (at ≤ length plan.now) × (v < 256) }
    ensures { (result ≡ table_row_start plan.now at v) × (result ≤ length plan.now + 5 + rows_room) }
{
    at + 5 + WORD_BYTES * words * v
}

// That row, word after word.
pub fn table_row(plan: &[u8], words: usize, at: usize, v: usize) -> usize
    requires { (words ≡ row_words plan.now) × (at ≤ length plan.now) × (v < 256) }
    ensures { result ≡ table_row_at plan.now at v }
{
    let start = table_row_start(plan, words, at, v);
    of_words(words, |k| word_at(plan, start + WORD_BYTES * k))
}

// One byte of such a row, the highest first. The row stands inside the plan, so there is no test for the plan's end.
pub fn table_byte(plan: &[u8], words: usize, at: usize, v: usize, part: usize) -> usize
    requires { (words ≡ row_words plan.now) × (v < 256) × (part < row_bytes plan.now) × (table_row_start plan.now at (suc v) ≤ length plan.now) }
    ensures { (result ≡ table_byte_at plan.now at v part) × (result < 256) }
{
    byte_inside(plan, table_row_start(plan, words, at, v) + part)
}

// The limit of a sodium rule or a set rule.
pub fn limit(plan: &[u8], at: usize) -> usize
    requires { at ≤ length plan.now }
    ensures { (result ≡ limit_at plan.now at) × (result < 65536) }
{
    word_at(plan, at + 5)
}

// How many slots a rule has behind its first two: only a set rule has any.
pub fn further_count(plan: &[u8], at: usize) -> usize
    requires { at ≤ length plan.now }
    ensures { (result ≡ further_count plan.now at) × (result < 256) }
{
    if Kind::at(plan, at) == Some(Kind::SetLimit) {
        byte_at(plan, at + 7)
    } else {
        0
    }
}

// Slot i of a rule's scope, from 0: the first two stand before the kind, the further ones behind their count.
pub fn scope_at(plan: &[u8], at: usize, i: usize) -> usize
    requires { (at ≤ length plan.now) × (i < 256) }
    ensures { (result ≡ scope_at plan.now at i) × (result < 256) }
{
    if i < 2 {
        byte_at(plan, at + 2 + i)
    } else {
        byte_at(plan, at + 6 + i)
    }
}
