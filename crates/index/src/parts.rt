// What the index gives: where a section starts, a variable's owner and number of values, whether two are linked, and the row of their counters.
// A plan and the cells that index it stay two parameters: `support_row`, `treat`, `write_lists`, `report` and others that README and docs
// name take any two for which `Ready` holds, so a type for the two would ask more of callers. Cells are a slice: `cells::layout` says why.
ghost use Rattle.std.specs.Prelude.{List, ◌≡◌, ℕ, ◌<◌, ◌≤◌, length};
ghost use Rattle.disac4.specs.System.{system_at};
ghost use Rattle.disac4.specs.Need.{work_need};
ghost use Rattle.plan.specs.Decode.{plan_of};
ghost use Rattle.format.specs.Format.{variable_count, section_count};
ghost use Rattle.format.specs.Limits.{max_workers, max_variables, max_values};
ghost use Rattle.plan.specs.Network.{share_constraint};
ghost use Rattle.plan.specs.Plan.{size_of};
ghost use Rattle.index.specs.Index.{Indexed, Located, Ready};
ghost use Rattle.rows.specs.Permits.{Placed};
ghost use Rattle.cells.specs.Memory.{mem_of};
ghost use Rattle.cells.specs.Layout.{COUNTERMAX};
ghost use Rattle.cells.specs.View.{Numbered, counter_row};

use cells::layout;
use format::read;

// Where section k starts.
pub fn place(plan: &[u8], cells: &[u16], k: usize) -> usize
    requires { Located plan.now cells.now × (k < section_count plan.now) }
    ensures { Placed plan.now result k }
{
    layout::get(cells, layout::PLACES, 0, k)
}

// The worker that owns variable x.
pub fn owner(plan: &[u8], cells: &[u16], x: usize) -> usize
    requires { Located plan.now cells.now × (x < variable_count plan.now) }
    ensures { (result ≡ (system_at plan.now).owner x) × (0 < result) × (result ≤ max_workers) }
{
    read::owner(plan, place(plan, cells, x + 1))
}

// The row of the counters of x against y.
pub fn counter_row(cells: &[u16], x: usize, y: usize) -> usize
    requires { (work_need ≤ length cells.now) × (x < max_variables) × (y < max_variables) × Numbered (mem_of cells.now) x y }
    ensures { (result ≡ counter_row (mem_of cells.now) x y) × (result ≤ COUNTERMAX) }
{
    let head = layout::get(cells, layout::PAIRS, x, y);
    if y < x { 2 * head } else { 2 * head - 1 }
}

// Whether two variables share a constraint of the plan that the cells index.
pub fn linked(cells: &[u16], x: usize, y: usize) -> bool
    requires { (x < max_variables) × (y < max_variables) × (work_need ≤ length cells.now) }
    ensures { (b : List ℕ) → Indexed b (mem_of cells.now) → result ≡ share_constraint (plan_of b) x y }
{
    layout::get(cells, layout::PAIRS, x, y) != 0
}

// How many values a variable has.
pub fn size(plan: &[u8], cells: &[u16], x: usize) -> usize
    requires { Ready plan.now cells.now × (x < variable_count plan.now) }
    ensures { (result ≡ size_of (plan_of plan.now) x) × (result ≤ max_values) }
{
    read::size(plan, place(plan, cells, x + 1))
}
