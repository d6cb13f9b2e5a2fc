// Send in the cells: the labels that a worker deleted go to all, as one list message. It says whether it changed something.
// Cells are a slice: `cells::layout` says why.
#![tactic(auto)]

ghost use Rattle.std.specs.Prelude.{◌≡◌, ◌<◌, ◌≤◌, length};
ghost use Rattle.disac4.specs.Need.{work_need};
ghost use Rattle.format.specs.Limits.{max_workers};
ghost use Rattle.cells.specs.Acts.{Acts};
ghost use Rattle.cells.specs.Layout.{SENDROOM, OUTROOM, LISTSMAX};
ghost use Rattle.cells.specs.Memory.{mem_of};
ghost use Rattle.sends.specs.Sends.{send_m, sent_with};

use cells::layout::{
    BOUNDS, LISTMARK, LISTS, LISTSMAX, LOGEND, OUT, OUTEND, OUTROOM, SENDROOM, SENDS, WORKERS, get,
    put,
};

// Sends row `i`'s next list message: up to `end` in the log, behind `sends` list messages and `outs` messages to the controller.
fn put_list(cells: &mut [u16], i: usize, sends: usize, end: usize, outs: usize, lists: usize)
    requires { (work_need ≤ length cells.old) × (i < max_workers) × (sends < SENDROOM) × (end < 65536) × (outs < OUTROOM) × (lists < LISTSMAX) }
    ensures { mem_of cells.new ≡ sent_with i sends end outs lists (mem_of cells.old) }
{
    put(cells, BOUNDS, i, sends + 1, end);
    put(cells, OUT, i, outs, LISTMARK + sends);
    put(cells, WORKERS, i, SENDS, sends + 1);
    put(cells, WORKERS, i, OUTEND, outs + 1);
    put(cells, WORKERS, i, LISTS, lists + 1);
}

// Send: the labels behind row `i`'s last list message go to all, as one list message.
pub fn send(cells: &mut [u16], i: usize) -> bool
    requires { (work_need ≤ length cells.old) × (i < max_workers) }
    ensures { Acts (send_m i) (mem_of cells.old) (mem_of cells.new) result }
{
    let sends = get(cells, WORKERS, i, SENDS);
    if sends >= SENDROOM {
        return false;
    }
    let start = get(cells, BOUNDS, i, sends);
    let end = get(cells, WORKERS, i, LOGEND);
    if start == end {
        return false;
    }
    let outs = get(cells, WORKERS, i, OUTEND);
    let lists = get(cells, WORKERS, i, LISTS);
    if outs >= OUTROOM || lists >= LISTSMAX {
        return false;
    }
    put_list(cells, i, sends, end, outs, lists);
    true
}
