// Loading the labels of a plan whose index stands in the cells: counters, domains, and the first deletions.
// Plan and cells are two parameters: `index::parts` says why.
#![tactic(auto)]

ghost use Rattle.std.specs.Prelude.{true, not, ◌≡◌, ◌+◌, ◌<◌, eqb};
ghost use Rattle.base.specs.Row.{row_of};
ghost use Rattle.cells.specs.Layout.{COUNTERS};
ghost use Rattle.cells.specs.Memory.{mem_of};
ghost use Rattle.cells.specs.View.{counter_row};
ghost use Rattle.disac4.specs.System.{system_at};
ghost use Rattle.plan.specs.Decode.{plan_of};
ghost use Rattle.plan.specs.Network.{share_constraint};
ghost use Rattle.plan.specs.Plan.{size_of};
ghost use Rattle.format.specs.Format.{variable_count};
ghost use Rattle.rows.specs.Permits.{Loaded};
ghost use Rattle.index.specs.Index.{Ready};
ghost use Rattle.loading.specs.Load.{suited_row, list_label_m, list_values_m, list_variable_m, list_m, load_m};

use base::{power, row_holds};
use cells::{layout, queues};
use counting::count_supports;
use format::read;
use index::parts;

// The row of the values of x whose counter against y is not 0; y shares a constraint with x.
fn counted_row(plan: &[u8], cells: &[u16], x: usize, y: usize) -> usize
    requires { Ready plan.now cells.now × (share_constraint (plan_of plan.now) x y ≡ true) }
    ensures { result ≡ row_of (size_of (plan_of plan.now) x) (λ v. not (eqb (mem_of cells.now COUNTERS (counter_row (mem_of cells.now) x y) v) 0)) }
{
    let n = parts::size(plan, cells, x);
    let at = parts::counter_row(cells, x, y);
    power(n) - 1 - layout::row_holding(cells, layout::COUNTERS, at, n, 0)
}

// The row of the values of x that suit the variables before y, and then y too.
fn suited_beside(plan: &[u8], cells: &[u16], x: usize, y: usize, row: usize) -> usize
    requires { Ready plan.now cells.now × (x < variable_count plan.now) × (y < variable_count plan.now) × (row ≡ suited_row (system_at plan.now) (mem_of cells.now) x y) }
    ensures { result ≡ suited_row (system_at plan.now) (mem_of cells.now) x (y + 1) }
{
    if !parts::linked(cells, x, y) {
        return row;
    }
    row & counted_row(plan, cells, x, y)
}

// The row of the values of x that have no counter of 0.
fn supported_row(plan: &[u8], cells: &[u16], x: usize) -> usize
    requires { Ready plan.now cells.now × (x < variable_count plan.now) }
    ensures { result ≡ suited_row (system_at plan.now) (mem_of cells.now) x (system_at plan.now).net.variables }
{
    let n = read::variable_count(plan);
    let mut row = power(parts::size(plan, cells, x)) - 1;
    for y in 0..n {
        row = suited_beside(plan, cells, x, y, row);
    }
    row
}

// Label v of x, which its owner deletes unless it is supported.
fn list_label(plan: &[u8], cells: &mut [u16], x: usize, v: usize, supported: bool)
    requires { Ready plan.now cells.old × Loaded plan.now x v }
    ensures { mem_of cells.new ≡ list_label_m (system_at plan.now) x v supported (mem_of cells.old) }
{
    layout::put(cells, layout::DOMAIN, x, v, layout::LISTED);
    if !supported {
        let owner = parts::owner(plan, cells, x);
        queues::delete(cells, owner - 1, x, v);
    }
}

// The values of x, of which the row holds those that are supported.
fn list_values(plan: &[u8], cells: &mut [u16], x: usize, row: usize)
    requires { Ready plan.now cells.old × (x < variable_count plan.now) }
    ensures { mem_of cells.new ≡ list_values_m (system_at plan.now) x row (mem_of cells.old) }
{
    let n = parts::size(plan, cells, x);
    for v in 0..n {
        list_label(plan, cells, x, v, row_holds(row, v));
    }
}

// The values of x, once the supports are counted.
fn list_variable(plan: &[u8], cells: &mut [u16], x: usize)
    requires { Ready plan.now cells.old × (x < variable_count plan.now) }
    ensures { mem_of cells.new ≡ list_variable_m (system_at plan.now) x (mem_of cells.old) }
{
    let row = supported_row(plan, cells, x);
    list_values(plan, cells, x, row);
}

// The values of all variables.
fn list_plan(plan: &[u8], cells: &mut [u16])
    requires { Ready plan.now cells.old }
    ensures { mem_of cells.new ≡ list_m (system_at plan.now) (mem_of cells.old) }
{
    let n = read::variable_count(plan);
    for x in 0..n {
        list_variable(plan, cells, x);
    }
}

// Loads the plan: the counters, then the domains and the first deletions.
pub fn load_plan(plan: &[u8], cells: &mut [u16])
    requires { Ready plan.now cells.old }
    ensures { mem_of cells.new ≡ load_m (system_at plan.now) (mem_of cells.old) }
{
    count_supports(plan, cells);
    list_plan(plan, cells);
}
