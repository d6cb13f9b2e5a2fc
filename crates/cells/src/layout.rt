// The regions of the work cells, each from where the one before it ends, as specs/Layout.antt has them; and reads and stores by row
// and column.
// Cells are a slice, and that it is long enough stands in each contract: `send`, `treat`, `delete`, `put_table` and others that README
// and docs name take every slice that is long enough, so a type that says it would ask more of callers.
ghost use Rattle.std.specs.Prelude.{◌≡◌, ◌-◌, ◌<◌, ◌≤◌, eqb};
ghost use Rattle.base.specs.Row.{row_of};
ghost use Rattle.disac4.specs.Need.{work_need};
ghost use Rattle.cells.specs.Layout.{VALUEROOM, cell_row, address, room, Fits};
ghost use Rattle.cells.specs.Memory.{share_of, with_share, mem_of, store};

use crate::Region;
use base::row_if;
use format::limits::{
    MAX_CONSTRAINTS, MAX_LABELS, MAX_PAIRS, MAX_VALUES, MAX_VARIABLES, MAX_WORKERS,
};

// Columns of a worker's row, and of a sender's row of cursors.
pub const WORKERCOLS: usize = 16;

// Values of a variable that the cells have room for: as many as a plan may give it.
pub const VALUEROOM: usize = MAX_VALUES;

// Labels that a row of LOG or WORK has room for: as many as a plan may have.
pub const LABELROOM: usize = MAX_LABELS;

// List messages that a worker has room for.
pub const SENDROOM: usize = LABELROOM + 7;

// Messages from a worker to the controller that there is room for.
pub const OUTROOM: usize = LABELROOM + 8;

// Polls that there is room for.
pub const POLLROOM: usize = LABELROOM + 7;

// The highest row of COUNTERS: each two linked variables have two, and row 0 is no one's.
pub const COUNTERMAX: usize = 2 * MAX_PAIRS;

// Sections of a plan that there is room for.
pub const PLACEROOM: usize = 176;

// The highest list counter: a cell holds no more.
pub const LISTSMAX: usize = 65535;

pub const WORKERS: Region = Region {
    id: 0,
    base: 0,
    rows: MAX_WORKERS,
    cols: WORKERCOLS,
    halved: false,
};

const CURSORS_AT: usize = MAX_WORKERS * WORKERCOLS;

pub const CURSORS: Region = Region {
    id: 1,
    base: CURSORS_AT,
    rows: MAX_WORKERS,
    cols: WORKERCOLS,
    halved: false,
};

const BOUNDS_AT: usize = CURSORS_AT + MAX_WORKERS * WORKERCOLS;

pub const BOUNDS: Region = Region {
    id: 2,
    base: BOUNDS_AT,
    rows: MAX_WORKERS,
    cols: SENDROOM + 1,
    halved: false,
};

const LOG_AT: usize = BOUNDS_AT + MAX_WORKERS * (SENDROOM + 1);

pub const LOG: Region = Region {
    id: 3,
    base: LOG_AT,
    rows: MAX_WORKERS,
    cols: LABELROOM,
    halved: false,
};

const WORK_AT: usize = LOG_AT + MAX_WORKERS * LABELROOM;

pub const WORK: Region = Region {
    id: 4,
    base: WORK_AT,
    rows: MAX_WORKERS,
    cols: LABELROOM,
    halved: false,
};

const OUT_AT: usize = WORK_AT + MAX_WORKERS * LABELROOM;

pub const OUT: Region = Region {
    id: 5,
    base: OUT_AT,
    rows: MAX_WORKERS,
    cols: OUTROOM,
    halved: false,
};

const WANTED_AT: usize = OUT_AT + MAX_WORKERS * OUTROOM;

pub const WANTED: Region = Region {
    id: 6,
    base: WANTED_AT,
    rows: 1,
    cols: POLLROOM + 1,
    halved: false,
};

const DOMAIN_AT: usize = WANTED_AT + POLLROOM + 1;

pub const DOMAIN: Region = Region {
    id: 7,
    base: DOMAIN_AT,
    rows: MAX_VARIABLES,
    cols: VALUEROOM,
    halved: false,
};

const COUNTERS_AT: usize = DOMAIN_AT + MAX_VARIABLES * VALUEROOM;

pub const COUNTERS: Region = Region {
    id: 8,
    base: COUNTERS_AT,
    rows: COUNTERMAX + 1,
    cols: VALUEROOM,
    halved: true,
};

const PAIRS_AT: usize = COUNTERS_AT + (COUNTERMAX + 2) / 2 * VALUEROOM;

pub const PAIRS: Region = Region {
    id: 9,
    base: PAIRS_AT,
    rows: MAX_VARIABLES,
    cols: MAX_VARIABLES,
    halved: false,
};

const PLACES_AT: usize = PAIRS_AT + MAX_VARIABLES * MAX_VARIABLES;

pub const PLACES: Region = Region {
    id: 10,
    base: PLACES_AT,
    rows: 1,
    cols: PLACEROOM,
    halved: false,
};

// NEXT, LASTS, FIRST and FOLLOW are chains of numbers: all of a run stands in cells that the caller lends, and there is no heap.
const NEXT_AT: usize = PLACES_AT + PLACEROOM;

pub const NEXT: Region = Region {
    id: 11,
    base: NEXT_AT,
    rows: 1,
    cols: MAX_CONSTRAINTS,
    halved: false,
};

const FIRST_AT: usize = NEXT_AT + MAX_CONSTRAINTS;

pub const FIRST: Region = Region {
    id: 12,
    base: FIRST_AT,
    rows: MAX_WORKERS,
    cols: MAX_VARIABLES,
    halved: false,
};

const FOLLOW_AT: usize = FIRST_AT + MAX_WORKERS * MAX_VARIABLES;

pub const FOLLOW: Region = Region {
    id: 13,
    base: FOLLOW_AT,
    rows: MAX_VARIABLES,
    cols: MAX_VARIABLES,
    halved: false,
};

const LASTS_AT: usize = FOLLOW_AT + MAX_VARIABLES * MAX_VARIABLES;

pub const LASTS: Region = Region {
    id: 14,
    base: LASTS_AT,
    rows: 1,
    cols: MAX_PAIRS + 1,
    halved: false,
};

const LIMITS_AT: usize = LASTS_AT + MAX_PAIRS + 1;

pub const LIMITS: Region = Region {
    id: 15,
    base: LIMITS_AT,
    rows: MAX_PAIRS + 1,
    cols: 2,
    halved: false,
};

const PAIREND_AT: usize = LIMITS_AT + (MAX_PAIRS + 1) * 2;

pub const PAIREND: Region = Region {
    id: 16,
    base: PAIREND_AT,
    rows: 1,
    cols: 1,
    halved: false,
};

// The columns of a pair's row of LIMITS.
pub const LIMITED: usize = 0;

pub const LOWEST: usize = 1;

// The columns of a worker's row.
pub const HEAD: usize = 0;

pub const TAIL: usize = 1;

pub const LOGEND: usize = 2;

pub const SENDS: usize = 3;

pub const LISTS: usize = 4;

pub const HELD: usize = 5;

pub const POLLS: usize = 6;

pub const OUTEND: usize = 7;

pub const OUTREAD: usize = 8;

// The mark of a list message among the messages to the controller.
pub const LISTMARK: usize = 1024;

// What the cell of a value holds while the value is in its domain.
pub const LISTED: usize = 65535;

// The row of cells where row i of a region stands.
fn cell_row(g: Region, i: usize) -> usize
    ensures { result ≡ cell_row g i }
{
    if g.halved { i / 2 } else { i }
}

// Where the cell at a row and column of a region stands.
fn place(g: Region, i: usize, j: usize) -> usize
    requires { address g i j < work_need }
    ensures { result ≡ address g i j }
{
    let base = g.base;
    let cols = g.cols;
    base + cell_row(g, i) * cols + j
}

// What a cell has for row i of a region. How far it is shifted is the same along a row, so that a loop over columns has no test.
fn share(g: Region, i: usize, c: usize) -> usize
    requires { c < 65536 }
    ensures { (result ≡ share_of g i c) × (result < room g) }
{
    if !g.halved {
        return c;
    }
    (c >> (i % 2 * 8)) % 256
}

// A cell with v for row i of a region. 65,280 is a cell's high byte: it goes down as far as v goes up, to the other row's half.
fn with_share(g: Region, i: usize, v: usize, c: usize) -> usize
    requires { (v < room g) × (c < 65536) }
    ensures { (result ≡ with_share g i v c) × (result < 65536) }
{
    if !g.halved {
        return v;
    }
    let low = i % 2 * 8;
    (c & (65280 >> low)) + (v << low)
}

// What stands at a row and column of a region.
pub fn get(cells: &[u16], g: Region, i: usize, j: usize) -> usize
    requires { Fits cells.now g i j }
    ensures { (result ≡ mem_of cells.now g.id i j) × (result < room g) }
{
    let at = place(g, i, j);
    share(g, i, cells[at] as usize)
}

// Puts a number at a row and column of a region.
pub fn put(cells: &mut [u16], g: Region, i: usize, j: usize, v: usize)
    requires { Fits cells.old g i j × (v < room g) }
    ensures { mem_of cells.new ≡ store (mem_of cells.old) g.id i j v }
{
    let at = place(g, i, j);
    cells[at] = with_share(g, i, v, cells[at] as usize) as u16;
}

// The row of the values below n whose cells in row i of a region hold c. It fits 32 bits, and of so short a row the compiled loop
// tests more values at once than of one of 64.
pub fn row_holding(cells: &[u16], g: Region, i: usize, n: usize, c: usize) -> usize
    requires { Fits cells.now g i (VALUEROOM - 1) × (n ≤ VALUEROOM) }
    ensures { result ≡ row_of n (λ v. eqb (mem_of cells.now g.id i v) c) }
{
    let mut row: u32 = 0;
    for v in 0..n {
        row += row_if(get(cells, g, i, v) == c, v) as u32;
    }
    row as usize
}
