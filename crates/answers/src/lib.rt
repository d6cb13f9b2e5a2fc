// Answer in the cells: a worker replies to the poll it holds. It says whether it changed something.
// Cells are a slice: `cells::layout` says why.
#![tactic(auto)]

ghost use Rattle.std.specs.Prelude.{◌≡◌, ◌<◌, ◌≤◌, length};
ghost use Rattle.disac4.specs.Need.{work_need};
ghost use Rattle.format.specs.Limits.{max_workers};
ghost use Rattle.cells.specs.Acts.{Acts};
ghost use Rattle.cells.specs.Layout.{WORKERS, LISTS, HELD, OUTROOM, POLLROOM};
ghost use Rattle.cells.specs.Memory.{mem_of};
ghost use Rattle.cells.specs.View.{poll_at};
ghost use Rattle.answers.specs.Answers.{answer_m, answered_with, empty_m};

use cells::layout::{
    self, BOUNDS, HEAD, HELD, LISTS, LOGEND, OUT, OUTEND, OUTROOM, POLLROOM, SENDROOM, SENDS, TAIL,
    WANTED, get, put,
};
use disac4::{ListCounter, Poll, Timestamp};

// Puts row `i`'s reply to the poll of this number, behind `outs` messages to the controller.
fn put_reply(cells: &mut [u16], i: usize, number: Timestamp, outs: usize)
    requires { (work_need ≤ length cells.old) × (i < max_workers) × (outs < OUTROOM) }
    ensures { mem_of cells.new ≡ answered_with i number.0 outs (mem_of cells.old) }
{
    put(cells, OUT, i, outs, number.0 as usize);
    put(cells, layout::WORKERS, i, OUTEND, outs + 1);
    put(cells, layout::WORKERS, i, HELD, 0);
}

// Whether both lists of row `i` are empty.
fn both_empty(cells: &[u16], i: usize) -> bool
    requires { (work_need ≤ length cells.now) × (i < max_workers) }
    ensures { result ≡ empty_m i (mem_of cells.now) }
{
    let head = get(cells, layout::WORKERS, i, HEAD);
    let tail = get(cells, layout::WORKERS, i, TAIL);
    let sends = get(cells, layout::WORKERS, i, SENDS);
    if head != tail || sends >= SENDROOM {
        return false;
    }
    let start = get(cells, BOUNDS, i, sends);
    let end = get(cells, layout::WORKERS, i, LOGEND);
    start == end
}

// The poll that row `i` holds: its number, and the wanted count that stands there.
fn held_poll(cells: &[u16], i: usize) -> Poll
    requires { (work_need ≤ length cells.now) × (i < max_workers) × (mem_of cells.now WORKERS i HELD ≤ POLLROOM) }
    ensures { result ≡ poll_at (mem_of cells.now) (mem_of cells.now WORKERS i HELD) }
{
    let number = get(cells, layout::WORKERS, i, HELD);
    let wanted = get(cells, WANTED, 0, number);
    Poll {
        number: Timestamp(number as u16),
        wanted: ListCounter(wanted as u16),
    }
}

// Row `i`'s count of lists.
fn list_counter(cells: &[u16], i: usize) -> ListCounter
    requires { (work_need ≤ length cells.now) × (i < max_workers) }
    ensures { result.0 ≡ mem_of cells.now WORKERS i LISTS }
{
    ListCounter(get(cells, layout::WORKERS, i, LISTS) as u16)
}

// Answer: row `i` replies to the poll it holds, where both its lists are empty and its list counter is the wanted count.
pub fn answer(cells: &mut [u16], i: usize) -> bool
    requires { (work_need ≤ length cells.old) × (i < max_workers) }
    ensures { Acts (answer_m i) (mem_of cells.old) (mem_of cells.new) result }
{
    let held = get(cells, layout::WORKERS, i, HELD);
    if held == 0 || held > POLLROOM {
        return false;
    }
    if !both_empty(cells, i) {
        return false;
    }
    let q = held_poll(cells, i);
    if list_counter(cells, i) != q.wanted {
        return false;
    }
    let outs = get(cells, layout::WORKERS, i, OUTEND);
    if outs >= OUTROOM {
        return false;
    }
    put_reply(cells, i, q.number, outs);
    true
}
