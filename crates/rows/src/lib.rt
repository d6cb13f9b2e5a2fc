// What a table or a limit permits, as rows of values, read from a plan's bytes alone.
#![tactic(auto)]

ghost use Rattle.std.specs.Prelude.{◌≡◌, ℕ, ◌<◌, ◌≤◌, ltb, length};
ghost use Rattle.format.specs.Format.{values_end, table_row_start};
ghost use Rattle.format.specs.Limits.{max_values};
ghost use Rattle.format.specs.Version.{row_words, max_size};
ghost use Rattle.base.specs.Row.{bit, row_of};
ghost use Rattle.plan.specs.Network.{within_limit};
ghost use Rattle.rows.specs.Permits.{table_permits, limited, in_column, Readable};

use base::{row_holds, row_where};
use format::limits::{MAX_WORDS, WORD_BYTES};
use format::version::row_words;
use format::{constraint, read};

// The sodium figure that means "not recorded".
const UNRECORDED: usize = 65535;

// The room that a limit leaves beside figure f: it permits exactly the figures below the room. Beside an unrecorded one
// there is none. It is at most 65,535, so that an unrecorded figure is never below it: the limit 65,535 would let it pass
// beside 0.
fn room_beside(limit: usize, f: usize) -> usize
    requires { limit < 65536 }
    ensures { (g : ℕ) → ltb g result ≡ within_limit limit f g }
{
    if f == UNRECORDED {
        return 0;
    }
    if limit < f {
        0
    } else if limit - f < UNRECORDED {
        limit - f + 1
    } else {
        UNRECORDED
    }
}

// The row of the values of the variable at `place` whose figures a limit permits with figure f; it has `values` of them.
pub fn limit_row(plan: &[u8], limit: usize, f: usize, place: usize, values: usize) -> usize
    requires { (values_end place values ≤ length plan.now) × (values ≤ max_values) × (limit < 65536) }
    ensures { result ≡ row_of values (limited plan.now limit f place) }
{
    let room = room_beside(limit, f);
    row_where(values, |w| read::figure(plan, place, w) < room)
}

// The row of the values of a table's first variable whose rows hold value v of the second; it has `values` of them.
// Value v stands in one byte of each row, so no other is read.
fn table_column(plan: &[u8], words: usize, at: usize, v: usize, values: usize) -> usize
    requires { (words ≡ row_words plan.now) × (v < max_size plan.now) × (values ≤ max_values) × (table_row_start plan.now at values ≤ length plan.now) }
    ensures { result ≡ row_of values (in_column plan.now at v) }
{
    let part = WORD_BYTES * words - 1 - v / 8;
    let k = v % 8;
    row_where(values, |w| {
        row_holds(constraint::table_byte(plan, words, at, w, part), k)
    })
}

// The row of the values that the table at `at` permits with value v of its first variable where `leads`, else of its second: the order
// of the two variables says which. The other variable has `values` of them. A row for v is read at once.
fn table_values(plan: &[u8], words: usize, at: usize, leads: bool, v: usize, values: usize) -> usize
    requires { (words ≡ row_words plan.now) × Readable plan.now at leads v values }
    ensures { (w : ℕ) → w < values → bit result w ≡ table_permits plan.now at leads v w }
{
    if leads {
        constraint::table_row(plan, words, at, v)
    } else {
        table_column(plan, words, at, v, values)
    }
}

// The same row. The compiler makes more of a table's rows where it knows how many words they have, so it is told.
pub fn permitted_values(plan: &[u8], at: usize, leads: bool, v: usize, values: usize) -> usize
    requires { Readable plan.now at leads v values }
    ensures { (w : ℕ) → w < values → bit result w ≡ table_permits plan.now at leads v w }
{
    if row_words(plan) == 1 {
        return table_values(plan, 1, at, leads, v, values);
    }
    table_values(plan, MAX_WORDS, at, leads, v, values)
}
