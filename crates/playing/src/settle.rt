// What the cells show at once after a changing turn: which actions of its worker are idle.
// Cells are a slice: `cells::layout` says why.
ghost use Rattle.std.specs.Prelude.{true, List, ◌≡◌, ℕ, ◌<◌, ◌≤◌, length};
ghost use Rattle.std.proofs.Math.Option.{none};
ghost use Rattle.format.specs.Limits.{max_workers};
ghost use Rattle.answers.specs.Answers.{answer_m};
ghost use Rattle.cells.specs.Memory.{mem_of};
ghost use Rattle.disac4.specs.System.{System};
ghost use Rattle.disac4.specs.Turn.{treat_action};
ghost use Rattle.disac4.specs.Need.{work_need};
ghost use Rattle.playing.specs.Known.{KnownIdle};
ghost use Rattle.refinement.specs.Run.{read_on};
ghost use Rattle.sends.specs.Sends.{send_m};
ghost use Rattle.treating.specs.Treat.{treat_m};

use cells::layout;
use disac4::{ANSWER_ACTION, SEND_ACTION, TREAT_ACTION, Tally};
use flags::Table;

// Row i has nothing to treat.
fn no_work(cells: &[u16], i: usize) -> bool
    requires { (work_need ≤ length cells.now) × (i < max_workers) }
    ensures { (sys : System) → result ≡ true → treat_m sys i (mem_of cells.now) ≡ none }
{
    let head = layout::get(cells, layout::WORKERS, i, layout::HEAD);
    let tail = layout::get(cells, layout::WORKERS, i, layout::TAIL);
    head >= tail
}

// Row i has nothing to send.
fn all_sent(cells: &[u16], i: usize) -> bool
    requires { (work_need ≤ length cells.now) × (i < max_workers) }
    ensures { result ≡ true → send_m i (mem_of cells.now) ≡ none }
{
    let sends = layout::get(cells, layout::WORKERS, i, layout::SENDS);
    if sends >= layout::SENDROOM {
        return true;
    }
    let start = layout::get(cells, layout::BOUNDS, i, sends);
    let end = layout::get(cells, layout::WORKERS, i, layout::LOGEND);
    start == end
}

// Row i has no poll to answer, or something to treat first.
fn no_answer(cells: &[u16], i: usize) -> bool
    requires { (work_need ≤ length cells.now) × (i < max_workers) }
    ensures { result ≡ true → answer_m i (mem_of cells.now) ≡ none }
{
    let held = layout::get(cells, layout::WORKERS, i, layout::HELD);
    let head = layout::get(cells, layout::WORKERS, i, layout::HEAD);
    let tail = layout::get(cells, layout::WORKERS, i, layout::TAIL);
    held == 0 || head != tail
}

// Row i has nothing to read from actor d.
fn all_read(cells: &[u16], t: Tally, i: usize, d: usize) -> bool
    requires { (work_need ≤ length cells.now) × (i < max_workers) × (d < treat_action) }
    ensures { result ≡ true → read_on t i d (mem_of cells.now) ≡ none }
{
    if d == 0 {
        let polls = layout::get(cells, layout::WORKERS, i, layout::POLLS);
        return polls >= t.timestamp.0 as usize;
    }
    let read = layout::get(cells, layout::CURSORS, d - 1, i);
    let sends = layout::get(cells, layout::WORKERS, d - 1, layout::SENDS);
    read >= sends
}

// Notes which actions of worker k the cells show to be idle, after its action d.
pub fn settle(cells: &[u16], t: Tally, table: &mut Table, k: usize, d: usize)
    requires { (work_need ≤ length cells.now) × (0 < k) × (k ≤ max_workers) }
    ensures { (b : List ℕ) → KnownIdle b cells.now t table.old → KnownIdle b cells.now t table.new }
{
    let i = k - 1;
    idle::note(table, k, TREAT_ACTION, no_work(cells, i));
    idle::note(table, k, SEND_ACTION, all_sent(cells, i));
    idle::note(table, k, ANSWER_ACTION, no_answer(cells, i));
    if d < TREAT_ACTION {
        idle::note(table, k, d, all_read(cells, t, i, d));
    }
}
