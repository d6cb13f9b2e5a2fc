// The two ends of a run: the plan is loaded, whatever the cells held; at the end the lists are written, the report is made, and
// the needed work cells become 0.
// Cells are a slice: `cells::layout` says why.
ghost use Rattle.std.specs.Prelude.{[], ◌≡◌, ◌≤◌, length};
ghost use Rattle.std.proofs.Math.Option.{none};
ghost use Rattle.disac4.specs.Need.{work_need, list_need};
ghost use Rattle.cells.specs.Memory.{mem_of};
ghost use Rattle.controller.specs.Controller.{machine};
ghost use Rattle.plan.specs.Decode.{plan_fault};
ghost use Rattle.refinement.specs.Run.{fresh_tally, start_m, At, Going, Finishes};

use cells::clear;
use disac4::{ListCounter, Progress, Report, Tally, Timestamp};
use engine::run::Run;

// The tally as loaded.
fn fresh() -> Tally
    ensures { result ≡ fresh_tally }
{
    Tally {
        lists: ListCounter(0),
        timestamp: Timestamp(0),
        marks: 0,
        polling: false,
        closed: false,
    }
}

// Loads an accepted plan, whatever the cells held.
fn start(plan: &[u8], cells: &mut [u16]) -> Tally
    requires { (plan_fault plan.now ≡ none) × (work_need ≤ length cells.old) }
    ensures { machine cells.new result ≡ start_m plan.now (mem_of cells.old) }
{
    clear::clear(cells);
    indexing::index_plan(plan, cells);
    loading::load_plan(plan, cells);
    fresh()
}

// Loads an accepted plan: a run that has played no turns.
pub fn load(plan: &[u8], work: &mut [u16]) -> Progress
    requires { (plan_fault plan.now ≡ none) × (work_need ≤ length work.old) }
    ensures { At plan.now (mem_of work.old) [] work.new result }
{
    let t = start(plan, work);
    Progress {
        tally: t,
        changes: 0,
        sends: 0,
        polls: 0,
    }
}

// Ends a run that has played its turns.
pub fn finish(run: &mut Run, lists: &mut [u16]) -> Report
    requires { Going run.old.plan.now run.old.cells.now run.old.progress × (list_need ≤ length lists.old) }
    ensures same_cells { run.new.cells.ghost_name ≡ run.old.cells.ghost_name }
    ensures ended { Finishes run.old.plan.now run.old.cells.now lists.old run.old.progress run.new.cells.now lists.new result }
{
    let plan = run.plan;
    let cells = &mut *run.cells;
    report::write_lists(plan, cells, lists);
    let r = report::report(plan, cells, run.progress);
    clear::clear(cells);
    r
}
