// The work list and the log: pushing a label, deleting one, and copying a list message.
// Cells are a slice: `cells::layout` says why.
ghost use Rattle.std.specs.Prelude.{◌≡◌, ◌+◌, ◌<◌, ◌≤◌, length};
ghost use Rattle.disac4.specs.Need.{work_need};
ghost use Rattle.format.specs.Limits.{max_workers, max_variables};
ghost use Rattle.cells.specs.Layout.{LABELROOM, VALUEROOM};
ghost use Rattle.cells.specs.Queues.{Pushes, push_m, delete_m, copy_m};
ghost use Rattle.cells.specs.Memory.{mem_of};

use crate::Region;
use crate::layout::{DOMAIN, LABELROOM, LOG, LOGEND, TAIL, VALUEROOM, WORK, WORKERS, get, put};

// Puts `c` at the end of row `i` of a region whose end is kept in a column of the worker's row.
pub fn push(cells: &mut [u16], g: Region, col: usize, i: usize, c: usize)
    requires { Pushes cells.old g col i c }
    ensures { mem_of cells.new ≡ push_m g.id col i c (mem_of cells.old) }
{
    let end = get(cells, WORKERS, i, col);
    if end < LABELROOM {
        put(cells, g, i, end, c);
        put(cells, WORKERS, i, col, end + 1);
    }
}

// Row `i` deletes label `v` of `x`.
pub fn delete(cells: &mut [u16], i: usize, x: usize, v: usize)
    requires { (work_need ≤ length cells.old) × (i < max_workers) × (x < max_variables) × (v < VALUEROOM) }
    ensures { mem_of cells.new ≡ delete_m i x v (mem_of cells.old) }
{
    let c = x * VALUEROOM + v;
    put(cells, DOMAIN, x, v, 0);
    push(cells, LOG, LOGEND, i, c);
    push(cells, WORK, TAIL, i, c);
}

// The first `n` labels behind `from` in row `j`'s log join the end of row `i`'s work list.
pub fn copy(cells: &mut [u16], j: usize, i: usize, from: usize, n: usize)
    requires { (work_need ≤ length cells.old) × (j < max_workers) × (i < max_workers) × (from + n ≤ LABELROOM) }
    ensures { mem_of cells.new ≡ copy_m j i from n (mem_of cells.old) }
{
    for k in 0..n {
        let c = get(cells, LOG, j, from + k);
        push(cells, WORK, TAIL, i, c);
    }
}
