// Counting the supports of a plan whose index stands in the cells. Of two linked variables only the rows of the first are
// worked out; those of the second are gathered from them. Each count is that of a row.
// Plan and cells are two parameters: `index::parts` says why.
#![tactic(auto)]

ghost use Rattle.std.specs.Prelude.{true, ◌≡◌, ◌<◌};
ghost use Rattle.disac4.specs.System.{system_at};
ghost use Rattle.plan.specs.Decode.{plan_of};
ghost use Rattle.plan.specs.Network.{share_constraint, network_of};
ghost use Rattle.plan.specs.Plan.{size_of};
ghost use Rattle.format.specs.Format.{variable_count};
ghost use Rattle.index.specs.Index.{Ready};
ghost use Rattle.cells.specs.Memory.{mem_of};
ghost use Rattle.cells.specs.Layout.{VALUEROOM};
ghost use Rattle.counting.specs.Count.{FirstRows, Gathers, Gathered, support_row, count_pair_m, count_both_m, count_variable_m, count_supports_m};

use base::{row_count, row_holds, row_if};
use cells::layout;
use cells::layout::VALUEROOM;
use format::read;
use index::parts;

// A row for each value of a variable.
type Rows = [u32; VALUEROOM];

// Half as many values as there is room for.
const HALFROOM: usize = VALUEROOM / 2;

// Rows without a value.
fn no_rows() -> Rows
    ensures { FirstRows (λ w. 0) VALUEROOM result }
{
    [0; VALUEROOM]
}

// Puts value v into the row of each value that the row of v holds, which are below n. The rows have lower values only, so its bit
// is added.
fn gather_below(rows: &mut Rows, n: usize, row: usize, v: usize)
    requires { Gathers rows.old n row v }
    ensures { Gathered row v rows.old rows.new }
{
    for w in 0..n {
        rows[w] += row_if(row_holds(row, w), v) as u32;
    }
}

// The same in one of two fixed numbers of steps: the compiler makes more of a loop whose length it knows.
fn gather(rows: &mut Rows, n: usize, row: usize, v: usize)
    requires { Gathers rows.old n row v }
    ensures { Gathered row v rows.old rows.new }
{
    if n <= HALFROOM {
        gather_below(rows, HALFROOM, row, v);
    } else {
        gather_below(rows, VALUEROOM, row, v);
    }
}

// The rows of the values of x against y, which shares a constraint with x. On the way the rows of y against x are gathered
// in `others`: that of a value of y has the values of x whose rows hold it.
fn support_rows(plan: &[u8], cells: &[u16], x: usize, y: usize, others: &mut Rows) -> Rows
    requires { Ready plan.now cells.now × (share_constraint (plan_of plan.now) x y ≡ true) × FirstRows (λ w. 0) VALUEROOM others.old }
    ensures { FirstRows (support_row (network_of (plan_of plan.now)) x y) (size_of (plan_of plan.now) x) result × FirstRows (support_row (network_of (plan_of plan.now)) y x) (size_of (plan_of plan.now) y) others.new }
{
    let n = parts::size(plan, cells, x);
    let m = parts::size(plan, cells, y);
    let mut rows = no_rows();
    for v in 0..n {
        let row = supports::support_row(plan, cells, x, v, y);
        rows[v] = row as u32;
        gather(others, m, row, v);
    }
    rows
}

// The counters of the values of x against y, whose rows are given. Every count is made of a row, by `row_count`.
fn put_counts(plan: &[u8], cells: &mut [u16], x: usize, y: usize, rows: &Rows)
    requires { Ready plan.now cells.old × (share_constraint (plan_of plan.now) x y ≡ true) × FirstRows (support_row (network_of (plan_of plan.now)) x y) (size_of (plan_of plan.now) x) rows.now }
    ensures { mem_of cells.new ≡ count_pair_m (system_at plan.now) x y (mem_of cells.old) }
{
    let n = parts::size(plan, cells, x);
    let at = parts::counter_row(cells, x, y);
    for v in 0..n {
        layout::put(cells, layout::COUNTERS, at, v, row_count(rows[v] as usize));
    }
}

// The counters of x and y against each other, if the two share a constraint.
fn count_both(plan: &[u8], cells: &mut [u16], x: usize, y: usize)
    requires { Ready plan.now cells.old × (x < variable_count plan.now) × (y < variable_count plan.now) }
    ensures { mem_of cells.new ≡ count_both_m (system_at plan.now) x y (mem_of cells.old) }
{
    if parts::linked(cells, x, y) {
        let mut others = no_rows();
        let rows = support_rows(plan, cells, x, y, &mut others);
        put_counts(plan, cells, x, y, &rows);
        put_counts(plan, cells, y, x, &others);
    }
}

// The counters of x and each variable before it, from the rows of that one: a table has those as they are.
fn count_variable(plan: &[u8], cells: &mut [u16], x: usize)
    requires { Ready plan.now cells.old × (x < variable_count plan.now) }
    ensures { mem_of cells.new ≡ count_variable_m (system_at plan.now) x (mem_of cells.old) }
{
    for y in 0..x {
        count_both(plan, cells, y, x);
    }
}

// The counters of each two variables.
pub fn count_supports(plan: &[u8], cells: &mut [u16])
    requires { Ready plan.now cells.old }
    ensures { mem_of cells.new ≡ count_supports_m (system_at plan.now) (mem_of cells.old) }
{
    let n = read::variable_count(plan);
    for x in 0..n {
        count_variable(plan, cells, x);
    }
}
