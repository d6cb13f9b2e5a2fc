// Reads of a worker in the cells: the next list message of a worker, or the next poll. Each says whether it changed something.
// Cells are a slice: `cells::layout` says why.
#![tactic(auto)]

ghost use Rattle.std.specs.Prelude.{◌≡◌, ◌-◌, ◌<◌, ◌≤◌, length};
ghost use Rattle.disac4.specs.Need.{work_need};
ghost use Rattle.format.specs.Limits.{max_workers};
ghost use Rattle.cells.specs.Acts.{Acts};
ghost use Rattle.cells.specs.Layout.{LABELROOM, SENDROOM, LISTSMAX};
ghost use Rattle.cells.specs.Queues.{copy_m};
ghost use Rattle.cells.specs.Memory.{mem_of};
ghost use Rattle.reads.specs.Reads.{read_list_m, taken_with, held_m, read_poll_m};

use cells::layout::{
    BOUNDS, CURSORS, HELD, LABELROOM, LISTS, LISTSMAX, POLLS, SENDROOM, SENDS, WORKERS, get, put,
};
use cells::queues::copy;
use disac4::Timestamp;

// The labels between two places of row `j`'s log join the end of row `i`'s work list.
fn copy_between(cells: &mut [u16], j: usize, i: usize, from: usize, to: usize)
    requires { (work_need ≤ length cells.old) × (j < max_workers) × (i < max_workers) × (to ≤ LABELROOM) }
    ensures { mem_of cells.new ≡ copy_m j i from (to - from) (mem_of cells.old) }
{
    if from <= to {
        copy(cells, j, i, from, to - from);
    }
}

// Row `i` takes the list message between two places of row `j`'s log, after `read` others.
fn take_list(
    cells: &mut [u16],
    j: usize,
    i: usize,
    read: usize,
    from: usize,
    to: usize,
    lists: usize,
)
    requires { (work_need ≤ length cells.old) × (j < max_workers) × (i < max_workers) × (read < SENDROOM) × (to ≤ LABELROOM) × (lists < LISTSMAX) }
    ensures { mem_of cells.new ≡ taken_with j i read from to lists (mem_of cells.old) }
{
    copy_between(cells, j, i, from, to);
    put(cells, CURSORS, j, i, read + 1);
    put(cells, WORKERS, i, LISTS, lists + 1);
}

// Read: row `i` takes the next list message of row `j`.
pub fn read_list(cells: &mut [u16], j: usize, i: usize) -> bool
    requires { (work_need ≤ length cells.old) × (j < max_workers) × (i < max_workers) }
    ensures { Acts (read_list_m j i) (mem_of cells.old) (mem_of cells.new) result }
{
    let read = get(cells, CURSORS, j, i);
    let sends = get(cells, WORKERS, j, SENDS);
    if read >= sends || read >= SENDROOM {
        return false;
    }
    let to = get(cells, BOUNDS, j, read + 1);
    let lists = get(cells, WORKERS, i, LISTS);
    if to > LABELROOM || lists >= LISTSMAX {
        return false;
    }
    let from = get(cells, BOUNDS, j, read);
    take_list(cells, j, i, read, from, to, lists);
    true
}

// The poll of this number is the last that row `i` has read, and the one that it holds.
fn hold(cells: &mut [u16], i: usize, number: Timestamp)
    requires { (work_need ≤ length cells.old) × (i < max_workers) }
    ensures { mem_of cells.new ≡ held_m i number.0 (mem_of cells.old) }
{
    let n = number.0 as usize;
    put(cells, WORKERS, i, POLLS, n);
    put(cells, WORKERS, i, HELD, n);
}

// Read: row `i` takes the next poll, up to the last that was sent, and holds it.
pub fn read_poll(cells: &mut [u16], i: usize, last: Timestamp) -> bool
    requires { (work_need ≤ length cells.old) × (i < max_workers) }
    ensures { Acts (read_poll_m i last.0) (mem_of cells.old) (mem_of cells.new) result }
{
    let n = last.0 as usize;
    let polls = get(cells, WORKERS, i, POLLS);
    if polls >= n {
        return false;
    }
    hold(cells, i, Timestamp(polls as u16 + 1));
    true
}
