// Treating a label: which labels lose it as a support, and which of them are deleted.
// Plan and cells are two parameters: `index::parts` says why.
#![tactic(auto)]

ghost use Rattle.std.specs.Prelude.{true, ◌≡◌, ℕ, ◌^◌, ◌<◌, ◌≤◌, length};
ghost use Rattle.format.specs.Limits.{max_workers, max_variables};
ghost use Rattle.disac4.specs.System.{system_at};
ghost use Rattle.disac4.specs.Need.{work_need};
ghost use Rattle.rows.specs.Permits.{Loaded};
ghost use Rattle.index.specs.Index.{own_linked, Ready};
ghost use Rattle.cells.specs.Acts.{Acts};
ghost use Rattle.cells.specs.Layout.{VALUEROOM, COUNTERMAX};
ghost use Rattle.cells.specs.Memory.{mem_of};
ghost use Rattle.treating.specs.Treat.{lose_m, lose_row_m, touch_variable_m, touch_variables_m, HeadLoaded, treat_m};
ghost use Rattle.cells.specs.View.{Numbered, counter_row};

use cells::layout::{LISTED, VALUEROOM};
use cells::{layout, queues};
use index::parts;

// Label v of x loses one from its count, in a row of counters; at 0 row i deletes it.
fn lose(cells: &mut [u16], i: usize, x: usize, v: usize, row: usize)
    requires { (work_need ≤ length cells.old) × (i < max_workers) × (x < max_variables) × (v < VALUEROOM) × (row ≤ COUNTERMAX) }
    ensures { (y : ℕ) → row ≡ counter_row (mem_of cells.old) x y → mem_of cells.new ≡ lose_m i x v y (mem_of cells.old) }
{
    let count = layout::get(cells, layout::COUNTERS, row, v);
    if count <= 1 {
        layout::put(cells, layout::COUNTERS, row, v, 0);
        queues::delete(cells, i, x, v);
    } else {
        layout::put(cells, layout::COUNTERS, row, v, count - 1);
    }
}

// The labels of x that a row holds, lowest first; their counters stand in another row.
fn lose_values(cells: &mut [u16], i: usize, x: usize, losing: usize, row: usize)
    requires { (work_need ≤ length cells.old) × (i < max_workers) × (x < max_variables) × (losing < 2 ^ VALUEROOM) × (row ≤ COUNTERMAX) }
    ensures { (n y : ℕ) → losing < 2 ^ n → row ≡ counter_row (mem_of cells.old) x y → mem_of cells.new ≡ lose_row_m n i x y losing (mem_of cells.old) }
{
    let mut rest = losing;
    while rest != 0 {
        lose(cells, i, x, usize::trailing_zeros(rest) as usize, row);
        rest = rest & (rest - 1);
    }
}

// The same, with the row of their counters against y looked up. Both branches say the same: which half of its cells that row has
// hangs on the order of x and y, and the compiler makes more of the loop where it knows the half.
fn lose_against(cells: &mut [u16], i: usize, x: usize, y: usize, losing: usize)
    requires { (work_need ≤ length cells.old) × (i < max_workers) × (x < max_variables) × (y < max_variables) × Numbered (mem_of cells.old) x y × (losing < 2 ^ VALUEROOM) }
    ensures { (n : ℕ) → losing < 2 ^ n → mem_of cells.new ≡ lose_row_m n i x y losing (mem_of cells.old) }
{
    if y < x {
        let row = parts::counter_row(cells, x, y);
        lose_values(cells, i, x, losing, row);
    } else {
        let row = parts::counter_row(cells, x, y);
        lose_values(cells, i, x, losing, row);
    }
}

// Variable x of row i, which shares a constraint with y. Only labels in its domain that had the treated one as a support
// lose it, so an empty domain needs no look at the constraints.
fn touch_variable(plan: &[u8], cells: &mut [u16], i: usize, y: usize, w: usize, x: usize)
    requires { Ready plan.now cells.old × (i < max_workers) × Loaded plan.now y w × (own_linked plan.now i y x ≡ true) }
    ensures { mem_of cells.new ≡ touch_variable_m (system_at plan.now) i y w x (mem_of cells.old) }
{
    let listed = layout::row_holding(cells, layout::DOMAIN, x, VALUEROOM, LISTED);
    if listed == 0 {
        return;
    }
    let losing = supports::support_row(plan, cells, y, w, x) & listed;
    lose_against(cells, i, x, y, losing);
}

// Every variable: only those of the row that share a constraint with y are touched, so following their chain is enough.
fn touch_variables(plan: &[u8], cells: &mut [u16], i: usize, y: usize, w: usize)
    requires { Ready plan.now cells.old × (i < max_workers) × Loaded plan.now y w }
    ensures { mem_of cells.new ≡ touch_variables_m (system_at plan.now) i y w (mem_of cells.old) }
{
    let mut next = layout::get(cells, layout::FIRST, i, y);
    while next != 0 {
        touch_variable(plan, cells, i, y, w, next - 1);
        next = layout::get(cells, layout::FOLLOW, next - 1, y);
    }
}

// Row i takes the oldest label from its work list. It says whether there is one.
pub fn treat(plan: &[u8], cells: &mut [u16], i: usize) -> bool
    requires { Ready plan.now cells.old × (i < max_workers) × HeadLoaded plan.now (mem_of cells.old) i }
    ensures { Acts (treat_m (system_at plan.now) i) (mem_of cells.old) (mem_of cells.new) result }
{
    let head = layout::get(cells, layout::WORKERS, i, layout::HEAD);
    let tail = layout::get(cells, layout::WORKERS, i, layout::TAIL);
    if head >= tail || head >= layout::LABELROOM {
        return false;
    }
    let c = layout::get(cells, layout::WORK, i, head);
    layout::put(cells, layout::WORKERS, i, layout::HEAD, head + 1);
    touch_variables(plan, cells, i, c / VALUEROOM, c % VALUEROOM);
    true
}
