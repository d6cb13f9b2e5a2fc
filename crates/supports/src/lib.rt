// Rows of supports: the values that an accepted plan allows with a label, read through its index in the work cells.
// Plan and cells are two parameters: `index::parts` says why.
#![tactic(auto)]

ghost use Rattle.std.specs.Prelude.{true, ◌≡◌, suc, ◌≤◌, length};
ghost use Rattle.base.specs.Row.{row_of};
ghost use Rattle.cells.specs.Memory.{mem_of};
ghost use Rattle.disac4.specs.Need.{work_need};
ghost use Rattle.format.specs.Format.{values_end};
ghost use Rattle.format.specs.Limits.{max_pairs, max_values};
ghost use Rattle.rows.specs.Permits.{Loaded};
ghost use Rattle.index.specs.Index.{Ready, lowest_limited};
ghost use Rattle.network.specs.Network.{supports};
ghost use Rattle.plan.specs.Decode.{plan_of};
ghost use Rattle.plan.specs.Network.{share_constraint, network_of};
ghost use Rattle.plan.specs.Plan.{size_of};

use base::power;
use cells::layout;
use format::read;
use index::parts;
use rows::{limit_row, permitted_values};

// The row of the values of the variable at `there` that the lowest limit of pair p permits with value v of the variable at `here`, or of
// all of them where the pair has no limit; there are `values`.
fn limit_values(
    plan: &[u8],
    cells: &[u16],
    p: usize,
    here: usize,
    v: usize,
    there: usize,
    values: usize,
) -> usize
    requires { (p ≤ max_pairs) × (values_end here (suc v) ≤ length plan.now) × (values_end there values ≤ length plan.now) × (values ≤ max_values) × (work_need ≤ length cells.now) }
    ensures { result ≡ row_of values (lowest_limited plan.now (mem_of cells.now) p here v there) }
{
    if layout::get(cells, layout::LIMITS, p, layout::LIMITED) == 0 {
        return power(values) - 1;
    }
    limit_row(
        plan,
        layout::get(cells, layout::LIMITS, p, layout::LOWEST),
        read::figure(plan, here, v),
        there,
        values,
    )
}

// The row of the supports of value v of x against y, which shares a constraint with x: the values that the lowest limit over the two
// and each table along their chain permit.
pub fn support_row(plan: &[u8], cells: &[u16], x: usize, v: usize, y: usize) -> usize
    requires { Ready plan.now cells.now × Loaded plan.now x v × (share_constraint (plan_of plan.now) x y ≡ true) }
    ensures { result ≡ row_of (size_of (plan_of plan.now) y) (supports (network_of (plan_of plan.now)) x v y) }
{
    let variables = read::variable_count(plan);
    let here = parts::place(plan, cells, x + 1);
    let there = parts::place(plan, cells, y + 1);
    let values = parts::size(plan, cells, y);
    let pair = layout::get(cells, layout::PAIRS, x, y);
    let mut row = limit_values(plan, cells, pair, here, v, there, values);
    let mut next = layout::get(cells, layout::LASTS, 0, pair);
    while next != 0 {
        let at = parts::place(plan, cells, variables + next);
        row = row & permitted_values(plan, at, x < y, v, values);
        next = layout::get(cells, layout::NEXT, 0, next - 1);
    }
    row
}
