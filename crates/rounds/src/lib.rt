// The round, and rounds until the plan is closed.
#![tactic(auto)]

ghost use Rattle.std.specs.Prelude.{cond, [], ◌∷◌, map, ◌≡◌, suc, ◌<◌, ◌≤◌, eqb};
ghost use Rattle.base.specs.Below.{gather_below, list_below, one};
ghost use Rattle.disac4.specs.Round.{others, worker_round, round, round_run_turns};
ghost use Rattle.disac4.specs.System.{system_at};
ghost use Rattle.disac4.specs.Turn.{turn};
ghost use Rattle.rounds.specs.Rounds.{Begun};
ghost use Rattle.engine.specs.Play.{Running, Works, Underway, Advances};
ghost use Rattle.format.specs.Format.{worker_count};
ghost use Rattle.format.specs.Limits.{max_workers};

use disac4::{ANSWER_ACTION, POLL_ACTION, SEND_ACTION, TREAT_ACTION, Tally};
use engine::run;
use engine::run::Run;

// Worker k reads from actor j, unless that is itself. It says whether that changed something.
fn read_other(plan: &[u8], cells: &mut [u16], t: Tally, p: usize, k: usize, j: usize) -> bool
    requires { Running plan.now cells.old t × (p ≡ worker_count plan.now) × (0 < k) × (k ≤ p) × (j ≤ p) }
    ensures { Works plan.now (map (turn k) (cond (eqb j k) [] (j ∷ []))) cells.old t cells.new (one result) 0 }
{
    if j == k {
        return false;
    }
    run::read_turn(plan, cells, t, p, k, j)
}

// Worker k reads from the controller, and then from every other worker: how many of these turns changed something.
fn reads(plan: &[u8], cells: &mut [u16], t: Tally, p: usize, k: usize) -> usize
    requires { Running plan.now cells.old t × (p ≡ worker_count plan.now) × (0 < k) × (k ≤ p) }
    ensures { Works plan.now (map (turn k) (others p k)) cells.old t cells.new result 0 × (result ≤ suc max_workers) }
{
    let mut changes = 0;
    for j in 0..=p {
        changes += usize::from(read_other(plan, cells, t, p, k, j));
    }
    changes
}

// Worker k reads, treats, sends and answers.
fn worker_round(run: &mut Run, k: usize)
    requires { Underway run.old × (0 < k) × (k ≤ run.old.workers) }
    ensures { Advances (worker_round run.old.workers k) run.old run.new }
{
    let plan = run.plan;
    let cells = &mut *run.cells;
    let t = run.progress.tally;
    let p = run.workers;
    let read = reads(plan, cells, t, p, k);
    let treated = usize::from(run::work_turn(plan, cells, t, p, k, TREAT_ACTION));
    let sent = usize::from(run::work_turn(plan, cells, t, p, k, SEND_ACTION));
    let answered = usize::from(run::work_turn(plan, cells, t, p, k, ANSWER_ACTION));
    run.progress.changes += read + treated + sent + answered;
    run.progress.sends += sent;
}

// The workers in turn.
fn workers_round(run: &mut Run)
    requires { Underway run.old }
    ensures { Advances (gather_below run.old.workers (λ i. worker_round run.old.workers (suc i))) run.old run.new }
{
    for i in 0..run.workers {
        worker_round(run, i + 1);
    }
}

// The controller reads from every worker.
fn read_all(run: &mut Run)
    requires { Underway run.old }
    ensures { Advances (list_below run.old.workers (λ i. turn 0 (suc i))) run.old run.new }
{
    for i in 0..run.workers {
        run.control(i + 1);
    }
}

// One round: the workers, and then the controller, which reads and polls.
fn play_round(run: &mut Run)
    requires { Underway run.old }
    ensures { Advances (round run.old.workers) run.old run.new }
{
    workers_round(run);
    read_all(run);
    run.control(POLL_ACTION);
}

// Rounds until the plan is closed.
pub fn play_rounds(run: &mut Run)
    requires { Begun run.old.plan.now run.old.cells.now run.old.progress × (run.old.workers ≡ worker_count run.old.plan.now) }
    ensures same_cells { run.new.cells.ghost_name ≡ run.old.cells.ghost_name }
    ensures played { Advances (round_run_turns (system_at run.old.plan.now)) run.old run.new }
{
    while !run.progress.tally.closed {
        play_round(run);
    }
}
