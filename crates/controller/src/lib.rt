// The controller's tally by value, and the controller's actions: poll and read.
// Cells are a slice: `cells::layout` says why.
#![tactic(auto)]

ghost use Rattle.std.specs.Prelude.{◌&&◌, ◌≡◌, ◌^◌, ◌<◌, ◌≤◌, ltb, length};
ghost use Rattle.std.specs.Option.{is_some, unwrap_or};
ghost use Rattle.disac4.specs.Need.{work_need};
ghost use Rattle.format.specs.Limits.{max_workers};
ghost use Rattle.cells.specs.Acts.{Acts};
ghost use Rattle.cells.specs.Layout.{WANTED, OUTROOM, POLLROOM, LISTSMAX};
ghost use Rattle.cells.specs.Memory.{mem_of, store};
ghost use Rattle.controller.specs.Controller.{polled_t, may_poll_t, counted_t, with_mark, marked_t, told_t, machine, poll_m, MayRead, HasRead};

use base::{power, row_holds};
use cells::layout::{
    self, LISTMARK, LISTSMAX, OUT, OUTEND, OUTREAD, OUTROOM, POLLROOM, WORKERS, get, put,
};
use disac4::{ListCounter, Poll, Tally, Timestamp};

// The tally after a poll was sent.
fn polled(t: Tally) -> Tally
    requires { t.timestamp.0 < POLLROOM }
    ensures { result ≡ polled_t t }
{
    Tally {
        timestamp: Timestamp(t.timestamp.0 + 1),
        marks: 0,
        polling: true,
        ..t
    }
}

// Whether a poll is sent: none is open, and there is room for its number.
fn may_poll(t: Tally) -> bool
    ensures { result ≡ may_poll_t t }
{
    !t.polling && (t.timestamp.0 as usize) < POLLROOM
}

// A list message adds one to the count and ends an open poll.
fn counted(t: Tally) -> Tally
    requires { t.lists.0 < LISTSMAX }
    ensures { result ≡ counted_t t }
{
    Tally {
        lists: ListCounter(t.lists.0 + 1),
        polling: false,
        ..t
    }
}

// A row of marks with that of row `i`.
fn with_mark(marks: usize, i: usize) -> usize
    requires { (marks < 2 ^ max_workers) × (i < max_workers) }
    ensures { (result ≡ with_mark marks i) × (result < 2 ^ max_workers) }
{
    if row_holds(marks, i) {
        marks
    } else {
        marks + power(i)
    }
}

// A reply to the open poll marks its worker; with all `p` marked, the plan is closed.
fn marked(t: Tally, p: usize, i: usize) -> Tally
    requires { (t.marks < 2 ^ max_workers) × (i < max_workers) × (p ≤ max_workers) }
    ensures { result ≡ marked_t p i t }
{
    let marks = with_mark(t.marks as usize, i);
    Tally {
        marks: marks as u16,
        closed: marks + 1 == power(p),
        ..t
    }
}

// The tally after the message `c` from row `i` was read.
fn told(t: Tally, p: usize, i: usize, c: usize) -> Tally
    requires { (t.lists.0 < LISTSMAX) × (t.marks < 2 ^ max_workers) × (i < max_workers) × (p ≤ max_workers) }
    ensures { result ≡ told_t p i c t }
{
    if c >= LISTMARK {
        counted(t)
    } else if t.polling && Timestamp(c as u16) == t.timestamp {
        marked(t, p, i)
    } else {
        t
    }
}

// The poll that a tally has open: the wanted count is the lists that the controller has read.
fn open_poll(t: Tally) -> Poll
    ensures { (result.number ≡ t.timestamp) × (result.wanted ≡ t.lists) }
{
    Poll {
        number: t.timestamp,
        wanted: t.lists,
    }
}

// Puts a poll where all workers read it: its wanted count, at its number.
fn put_poll(cells: &mut [u16], q: Poll)
    requires { (work_need ≤ length cells.old) × (q.number.0 ≤ POLLROOM) }
    ensures { mem_of cells.new ≡ store (mem_of cells.old) WANTED 0 q.number.0 q.wanted.0 }
{
    put(
        cells,
        layout::WANTED,
        0,
        q.number.0 as usize,
        q.wanted.0 as usize,
    );
}

// Poll: where none is open, the controller sends the next one, with its count of lists. It gives the tally after it, and None where it
// was idle.
pub fn poll(cells: &mut [u16], t: Tally) -> Option<Tally>
    requires { work_need ≤ length cells.old }
    ensures { Acts poll_m (machine cells.old t) (machine cells.new (unwrap_or result t)) (is_some result) }
{
    if !may_poll(t) {
        return None;
    }
    let after = polled(t);
    put_poll(cells, open_poll(after));
    Some(after)
}

// Whether a queue has a message behind those that are read, and there is room to count it.
fn has_out(read: usize, end: usize, lists: ListCounter) -> bool
    ensures { result ≡ (ltb read end && ltb read OUTROOM && ltb lists.0 LISTSMAX) }
{
    read < end && read < OUTROOM && (lists.0 as usize) < LISTSMAX
}

// Read: the controller takes the next message of row `i`, of `p` workers. It gives the tally after it, and None where it was idle.
pub fn read_message(cells: &mut [u16], t: Tally, p: usize, i: usize) -> Option<Tally>
    requires { MayRead cells.old t p i }
    ensures { HasRead cells.old t p i cells.new (unwrap_or result t) (is_some result) }
{
    let read = get(cells, WORKERS, i, OUTREAD);
    let end = get(cells, WORKERS, i, OUTEND);
    if !has_out(read, end, t.lists) {
        return None;
    }
    let c = get(cells, OUT, i, read);
    put(cells, WORKERS, i, OUTREAD, read + 1);
    Some(told(t, p, i, c))
}
