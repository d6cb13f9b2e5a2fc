// Whole runs on an accepted plan: it is loaded, the turns are played, and the run ends with its report.
// The two differ in one call: a closure for it would need more clauses than it saves lines.
#![tactic(auto)]

ghost use Rattle.std.proofs.Math.Option.{none};
ghost use Rattle.std.specs.Prelude.{◌≡◌, ◌≤◌, length};
ghost use Rattle.lending.specs.Call.{Gives};
ghost use Rattle.disac4.specs.Outcome.{lent, played, turn_run, round_run};
ghost use Rattle.disac4.specs.Need.{work_need, list_need};
ghost use Rattle.disac4.specs.Turn.{turn_fault};
ghost use Rattle.plan.specs.Decode.{plan_fault};
ghost use Rattle.format.specs.Format.{worker_count};

use disac4::Report;
use engine::run::Run;

mod ends;

// Plays a list of allowed turns on an accepted plan.
pub fn play_list(plan: &[u8], turns: &[u8], work: &mut [u16], lists: &mut [u16], p: usize) -> Report
    requires { (plan_fault plan.now ≡ none) × (work_need ≤ length work.old) × (list_need ≤ length lists.old) × (p ≡ worker_count plan.now) × (turn_fault p turns.now ≡ none) }
    ensures { Gives (played (turn_run plan.now turns.now) (lent work.old lists.old)) (Ok result) (lent work.new lists.new) }
{
    let progress = ends::load(plan, work);
    let mut run = Run {
        plan,
        cells: work,
        workers: p,
        progress,
    };
    playing::play_turns(&mut run, turns);
    ends::finish(&mut run, lists)
}

// Plays rounds on an accepted plan until it is closed.
pub fn play_until_closed(plan: &[u8], work: &mut [u16], lists: &mut [u16], p: usize) -> Report
    requires { (plan_fault plan.now ≡ none) × (work_need ≤ length work.old) × (list_need ≤ length lists.old) × (p ≡ worker_count plan.now) }
    ensures { Gives (played (round_run plan.now) (lent work.old lists.old)) (Ok result) (lent work.new lists.new) }
{
    let progress = ends::load(plan, work);
    let mut run = Run {
        plan,
        cells: work,
        workers: p,
        progress,
    };
    rounds::play_rounds(&mut run);
    ends::finish(&mut run, lists)
}
