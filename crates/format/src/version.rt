// What a plan's version fixes: how wide a row of bits is, and which kinds of constraints there are.
// That two of them are the same numbers is chance: each is a fact of the format by its own name, which one function would hide.
ghost use Rattle.std.specs.Prelude.{◌≡◌, ◌<◌, ◌≤◌};
ghost use Rattle.format.specs.Limits.{max_words};
ghost use Rattle.format.specs.Version.{version, by_version, row_words, max_size, row_bytes, max_kind};

use crate::limits::{WORD_BITS, WORD_BYTES};
use reader::byte_at;

// The version byte, 0 for no bytes.
pub fn number(plan: &[u8]) -> usize
    ensures { (result ≡ version plan.now) × (result < 256) }
{
    byte_at(plan, 0)
}

// What version 1 has, or what version 2 has. The one place that asks for the version, so a type for it would serve nothing else.
fn by_version(plan: &[u8], one: usize, two: usize) -> usize
    ensures { result ≡ by_version plan.now one two }
{
    if number(plan) == 2 { two } else { one }
}

// How many 16-bit words a row of bits has.
pub fn row_words(plan: &[u8]) -> usize
    ensures { (result ≡ row_words plan.now) × (1 ≤ result) × (result ≤ max_words) }
{
    by_version(plan, 1, 2)
}

// Dishes that a slot may have.
pub fn max_size(plan: &[u8]) -> usize
    ensures { result ≡ max_size plan.now }
{
    WORD_BITS * row_words(plan)
}

// Bytes of a table's row.
pub fn row_bytes(plan: &[u8]) -> usize
    ensures { result ≡ row_bytes plan.now }
{
    WORD_BYTES * row_words(plan)
}

// The highest kind of a constraint.
pub fn max_kind(plan: &[u8]) -> usize
    ensures { result ≡ max_kind plan.now }
{
    by_version(plan, 1, 2)
}
