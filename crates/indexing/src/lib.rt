// Writes the index of an accepted plan into the work cells: where its sections start; a number for each pair of linked variables, with
// the tables over them as a chain and the lowest limit; and the variables of each worker that are linked with another one as a chain
// too.
// Plan and cells are two parameters: `index::parts` says why.
#![tactic(auto)]

ghost use Rattle.std.proofs.Math.Option.{none};
ghost use Rattle.std.specs.Prelude.{◌≡◌, ◌<◌, ◌≤◌, length};
ghost use Rattle.disac4.specs.Need.{work_need};
ghost use Rattle.format.specs.Limits.{max_workers, max_variables, max_constraints};
ghost use Rattle.base.specs.Below.{loop};
ghost use Rattle.format.specs.Format.{constraint_start, scope_size};
ghost use Rattle.index.specs.Index.{Located, Scoped, places_m, beside_m, limits_m, constraint_m, constraints_m, lead_m, own_m, index_m};
ghost use Rattle.cells.specs.Memory.{mem_of};
ghost use Rattle.plan.specs.Decode.{plan_fault};

use cells::layout;
use format::kind::Kind;
use format::{constraint, read};
use index::parts;

mod pairs;

// Where each section starts.
fn index_places(plan: &[u8], cells: &mut [u16])
    requires { (plan_fault plan.now ≡ none) × (work_need ≤ length cells.old) }
    ensures { mem_of cells.new ≡ places_m plan.now (mem_of cells.old) }
{
    let count = read::section_count(plan);
    let mut at = 1;
    for k in 0..count {
        layout::put(cells, layout::PLACES, 0, k, at);
        at = read::behind(plan, at);
    }
}

// The limit of the constraint at `at`, over the variable at place j of its scope and each one before it.
fn put_beside(plan: &[u8], cells: &mut [u16], at: usize, j: usize)
    requires { Scoped plan.now at × (j < scope_size plan.now at) × (work_need ≤ length cells.old) }
    ensures { mem_of cells.new ≡ beside_m plan.now at j j (mem_of cells.old) }
{
    let limit = constraint::limit(plan, at);
    let y = constraint::scope_at(plan, at, j) - 1;
    for i in 0..j {
        pairs::put_limit(cells, limit, constraint::scope_at(plan, at, i) - 1, y);
    }
}

// The same for each two variables of the scope.
fn put_limits(plan: &[u8], cells: &mut [u16], at: usize)
    requires { Scoped plan.now at × (work_need ≤ length cells.old) }
    ensures { mem_of cells.new ≡ limits_m plan.now at (mem_of cells.old) }
{
    let size = 2 + constraint::further_count(plan, at);
    for j in 0..size {
        put_beside(plan, cells, at, j);
    }
}

// Constraint c, which stands at `at`: a table, or a limit.
fn put_constraint(plan: &[u8], cells: &mut [u16], c: usize, at: usize)
    requires { Scoped plan.now at × (at ≡ constraint_start plan.now c) × (c < max_constraints) × (work_need ≤ length cells.old) }
    ensures { mem_of cells.new ≡ constraint_m plan.now c (mem_of cells.old) }
{
    if Kind::at(plan, at) == Some(Kind::Table) {
        pairs::put_table(
            cells,
            constraint::first(plan, at) - 1,
            constraint::second(plan, at) - 1,
            c,
        );
    } else {
        put_limits(plan, cells, at);
    }
}

// All constraints, from the first to the last.
fn index_constraints(plan: &[u8], cells: &mut [u16])
    requires { Located plan.now cells.old }
    ensures { mem_of cells.new ≡ constraints_m plan.now (mem_of cells.old) }
{
    let variables = read::variable_count(plan);
    let count = read::constraint_count(plan);
    for c in 0..count {
        let at = parts::place(plan, cells, variables + c + 1);
        put_constraint(plan, cells, c, at);
    }
}

// Puts variable x in front of the chain of row i for y, if it is linked with y.
fn lead(cells: &mut [u16], i: usize, x: usize, y: usize)
    requires { (i < max_workers) × (x < max_variables) × (y < max_variables) × (work_need ≤ length cells.old) }
    ensures { mem_of cells.new ≡ lead_m i x y (mem_of cells.old) }
{
    if layout::get(cells, layout::PAIRS, x, y) != 0 {
        let first = layout::get(cells, layout::FIRST, i, y);
        layout::put(cells, layout::FOLLOW, x, y, first);
        layout::put(cells, layout::FIRST, i, y, x + 1);
    }
}

// The same for each of the first n variables.
fn leads(cells: &mut [u16], i: usize, x: usize, n: usize)
    requires { (i < max_workers) × (x < max_variables) × (n ≤ max_variables) × (work_need ≤ length cells.old) }
    ensures { mem_of cells.new ≡ loop n (lead_m i x) (mem_of cells.old) }
{
    for y in 0..n {
        lead(cells, i, x, y);
    }
}

// The chains of the workers' own variables, from the last variable to the first, so that they ascend.
fn index_own(plan: &[u8], cells: &mut [u16])
    requires { Located plan.now cells.old }
    ensures { mem_of cells.new ≡ own_m plan.now (mem_of cells.old) }
{
    let n = read::variable_count(plan);
    for x in (0..n).rev() {
        leads(cells, parts::owner(plan, cells, x) - 1, x, n);
    }
}

// Writes the index of an accepted plan. It grows from what the cells hold, so a run clears them first.
pub fn index_plan(plan: &[u8], cells: &mut [u16])
    requires { (plan_fault plan.now ≡ none) × (work_need ≤ length cells.old) }
    ensures { mem_of cells.new ≡ index_m plan.now (mem_of cells.old) }
{
    index_places(plan, cells);
    index_constraints(plan, cells);
    index_own(plan, cells);
}
