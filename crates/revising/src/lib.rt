// Revises the list of a variable against that of another one, which stands in a lent list buffer: which of its values have a
// support there.
// Plan and cells are two parameters: `index::parts` says why.
#![tactic(auto)]

ghost use Rattle.std.specs.Prelude.{true, ◌&&◌, ◌≡◌, ◌<◌};
ghost use Rattle.base.specs.Row.{bit, row_of};
ghost use Rattle.disac4.specs.Report.{row_from};
ghost use Rattle.disac4.specs.System.{network_at};
ghost use Rattle.format.specs.Format.{variable_count};
ghost use Rattle.format.specs.Version.{row_words};
ghost use Rattle.index.specs.Index.{Ready};
ghost use Rattle.listing.specs.ListCells.{Shows};
ghost use Rattle.network.specs.Network.{Domains};
ghost use Rattle.network.specs.Sweep.{has_support};
ghost use Rattle.plan.specs.Decode.{plan_of};
ghost use Rattle.plan.specs.Network.{share_constraint};
ghost use Rattle.plan.specs.Plan.{size_of};
ghost use Rattle.rows.specs.Permits.{Loaded};

use base::{row_holds, row_where};
use format::lists::row_at;
use format::version::row_words;
use index::parts;
use supports::support_row;

// Whether value v of x has a support in the row of y, which shares a constraint with x.
fn has_support(plan: &[u8], cells: &[u16], x: usize, v: usize, y: usize, other: usize) -> bool
    requires { Ready plan.now cells.now × Loaded plan.now x v × (share_constraint (plan_of plan.now) x y ≡ true) }
    ensures { (d : Domains) → other ≡ row_from (network_at plan.now) d y → result ≡ has_support (network_at plan.now) d x v y }
{
    support_row(plan, cells, x, v, y) & other != 0
}

// Whether the row of x holds value v, and v has a support in the row of y.
fn keeps(plan: &[u8], cells: &[u16], x: usize, v: usize, y: usize, row: usize, other: usize) -> bool
    requires { Ready plan.now cells.now × Loaded plan.now x v × (share_constraint (plan_of plan.now) x y ≡ true) }
    ensures { (d : Domains) → other ≡ row_from (network_at plan.now) d y → result ≡ bit row v && has_support (network_at plan.now) d x v y }
{
    if row_holds(row, v) {
        has_support(plan, cells, x, v, y, other)
    } else {
        false
    }
}

// Of the values of x in the row, those that have a support in the list of y.
pub fn revised_row(
    plan: &[u8],
    cells: &[u16],
    lists: &[u16],
    x: usize,
    y: usize,
    row: usize,
) -> usize
    requires { Ready plan.now cells.now × (x < variable_count plan.now) × (share_constraint (plan_of plan.now) x y ≡ true) }
    ensures { (d : Domains) → Shows (row_words plan.now) (network_at plan.now) d lists.now → result ≡ row_of (size_of (plan_of plan.now) x) (λ v. bit row v && has_support (network_at plan.now) d x v y) }
{
    let values = parts::size(plan, cells, x);
    let other = row_at(lists, row_words(plan), y);
    row_where(values, |v| keeps(plan, cells, x, v, y, row, other))
}
