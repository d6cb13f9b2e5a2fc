// The turns of a run.
// Cells are a slice: `cells::layout` says why.
ghost use Rattle.std.specs.Prelude.{true, cond, [], ◌∷◌, ◌≡◌, ◌<◌, ◌≤◌, eqb, length};
ghost use Rattle.std.specs.Option.{is_some, unwrap_or};
ghost use Rattle.base.specs.Below.{one};
ghost use Rattle.disac4.specs.Turn.{allowed, turn, send_action, poll_action, treat_action};
ghost use Rattle.disac4.specs.Need.{work_need};
ghost use Rattle.cells.specs.Acts.{Acts};
ghost use Rattle.cells.specs.Memory.{mem_of};
ghost use Rattle.engine.specs.Play.{Running, Works, Underway, Advances};
ghost use Rattle.refinement.specs.Run.{Playable, read_on, worker_on, turn_on};
ghost use Rattle.controller.specs.Controller.{machine};
ghost use Rattle.format.specs.Format.{worker_count};
ghost use Rattle.format.specs.Limits.{max_workers};
ghost use Rattle.disac4.specs.System.{system_at};

use disac4::{ANSWER_ACTION, POLL_ACTION, Progress, SEND_ACTION, TREAT_ACTION, Tally};

// Row `i` reads from actor `d`: the next poll, or the next list message.
fn read(cells: &mut [u16], t: Tally, i: usize, d: usize) -> bool
    requires { (work_need ≤ length cells.old) × (i < max_workers) × (d < treat_action) }
    ensures { Acts (read_on t i d) (mem_of cells.old) (mem_of cells.new) result }
{
    if d == 0 {
        reads::read_poll(cells, i, t.timestamp)
    } else {
        reads::read_list(cells, d - 1, i)
    }
}

// The action `d` of row `i`. A match and no closure: which action it is comes from a byte of the turn list.
fn work(plan: &[u8], cells: &mut [u16], t: Tally, i: usize, d: usize) -> bool
    requires { Playable plan.now cells.old t × (i < worker_count plan.now) × (d < poll_action) }
    ensures { Acts (worker_on (system_at plan.now) t i d) (mem_of cells.old) (mem_of cells.new) result }
{
    match d {
        TREAT_ACTION => treating::treat(plan, cells, i),
        SEND_ACTION => sends::send(cells, i),
        ANSWER_ACTION => answers::answer(cells, i),
        _ => read(cells, t, i, d),
    }
}

// One turn of worker k, which is an allowed one of p workers. It says whether it changed something. It takes the parts of a run and not
// the `Run`, as does `read_turn`: most turns are idle, and cost less where no record is written.
pub fn work_turn(plan: &[u8], cells: &mut [u16], t: Tally, p: usize, k: usize, d: usize) -> bool
    requires { Running plan.now cells.old t × (p ≡ worker_count plan.now) × (0 < k) × (allowed p (turn k d) ≡ true) }
    ensures { Works plan.now (turn k d ∷ []) cells.old t cells.new (one result) (cond (eqb d send_action) (one result) 0) }
{
    if t.closed {
        return false;
    }
    work(plan, cells, t, k - 1, d)
}

// The same for a read alone, without the tests for other actions: most turns of a round are reads.
pub fn read_turn(plan: &[u8], cells: &mut [u16], t: Tally, p: usize, k: usize, j: usize) -> bool
    requires { Running plan.now cells.old t × (p ≡ worker_count plan.now) × (0 < k) × (j < treat_action) × (allowed p (turn k j) ≡ true) }
    ensures { Works plan.now (turn k j ∷ []) cells.old t cells.new (one result) 0 }
{
    if t.closed {
        return false;
    }
    read(cells, t, k - 1, j)
}

// One turn of the controller, which is an allowed one of p workers: the tally after it, and None where it was idle.
fn control_turn(plan: &[u8], cells: &mut [u16], t: Tally, p: usize, d: usize) -> Option<Tally>
    requires { Playable plan.now cells.old t × (p ≡ worker_count plan.now) × (allowed p (turn 0 d) ≡ true) }
    ensures { Acts (turn_on (system_at plan.now) 0 d) (machine cells.old t) (machine cells.new (unwrap_or result t)) (is_some result) }
{
    if t.closed {
        return None;
    }
    if d == POLL_ACTION {
        controller::poll(cells, t)
    } else {
        lent::read_by_value(cells, t, p, d - 1)
    }
}

// A run on lent cells, where some turns of an accepted plan have been played.
#[derive(Drop)]
pub struct Run<'p, 'c> {
    pub plan: &'p [u8],
    pub cells: &'c mut [u16],
    pub workers: usize,
    pub progress: Progress,
}

impl Run<'_, '_> {
    // One turn more of the controller.
    pub fn control(&mut self, action: usize)
        requires { Underway self.old × (allowed self.old.workers (turn 0 action) ≡ true) }
        ensures { Advances (turn 0 action ∷ []) self.old self.new }
    {
        let tally = self.progress.tally;
        let Some(tally) = control_turn(self.plan, self.cells, tally, self.workers, action) else {
            return;
        };
        self.progress.tally = tally;
        self.progress.changes += 1;
        self.progress.polls += usize::from(action == POLL_ACTION);
    }

    // One turn more, which is an allowed one.
    pub fn advance(&mut self, actor: usize, action: usize)
        requires { Underway self.old × (allowed self.old.workers (turn actor action) ≡ true) }
        ensures { Advances (turn actor action ∷ []) self.old self.new }
    {
        if actor == 0 {
            self.control(action);
            return;
        }
        let tally = self.progress.tally;
        if work_turn(self.plan, self.cells, tally, self.workers, actor, action) {
            self.progress.changes += 1;
            self.progress.sends += usize::from(action == SEND_ACTION);
        }
    }
}
