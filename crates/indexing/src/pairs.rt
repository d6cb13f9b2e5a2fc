// Pairs of variables in the index: their numbers, and what a table or a limit puts for a pair.
// Cells are a slice: `cells::layout` says why.
ghost use Rattle.std.specs.Prelude.{◌&&◌, not, ◌≡◌, ◌<◌, ◌≤◌, leb, eqb, length};
ghost use Rattle.disac4.specs.Need.{work_need};
ghost use Rattle.format.specs.Limits.{max_variables, max_constraints, max_pairs};
ghost use Rattle.index.specs.Index.{pair_in, number_m, chain_m, lower_m, table_m, limit_m};
ghost use Rattle.cells.specs.Layout.{LIMITS, LIMITED, LOWEST};
ghost use Rattle.cells.specs.Memory.{mem_of};

use cells::layout;
use format::limits::MAX_PAIRS;

// The number of the pair that x and y are, 0 where they have none: so the cells have it.
fn pair(cells: &[u16], x: usize, y: usize) -> usize
    requires { (x < max_variables) × (y < max_variables) × (work_need ≤ length cells.now) }
    ensures { (result ≡ pair_in (mem_of cells.now) x y) × (result ≤ max_pairs) }
{
    let number = layout::get(cells, layout::PAIRS, x, y);
    if number <= MAX_PAIRS { number } else { 0 }
}

// Gives x and y the next number, unless they have one.
fn number(cells: &mut [u16], x: usize, y: usize)
    requires { (x < max_variables) × (y < max_variables) × (work_need ≤ length cells.old) }
    ensures { mem_of cells.new ≡ number_m x y (mem_of cells.old) }
{
    if pair(cells, x, y) == 0 {
        let end = layout::get(cells, layout::PAIREND, 0, 0);
        if end < MAX_PAIRS {
            layout::put(cells, layout::PAIREND, 0, 0, end + 1);
            layout::put(cells, layout::PAIRS, x, y, end + 1);
            layout::put(cells, layout::PAIRS, y, x, end + 1);
        }
    }
}

// Puts table c in front of the chain of pair p.
fn chain(cells: &mut [u16], p: usize, c: usize)
    requires { (p ≤ max_pairs) × (c < max_constraints) × (work_need ≤ length cells.old) }
    ensures { mem_of cells.new ≡ chain_m p c (mem_of cells.old) }
{
    let last = layout::get(cells, layout::LASTS, 0, p);
    layout::put(cells, layout::NEXT, 0, c, last);
    layout::put(cells, layout::LASTS, 0, p, c + 1);
}

// Whether pair p has a limit that is as low as this one.
fn is_low(cells: &[u16], p: usize, limit: usize) -> bool
    requires { (p ≤ max_pairs) × (work_need ≤ length cells.now) }
    ensures { result ≡ (not (eqb (mem_of cells.now LIMITS p LIMITED) 0) && leb (mem_of cells.now LIMITS p LOWEST) limit) }
{
    if layout::get(cells, layout::LIMITS, p, layout::LIMITED) == 0 {
        return false;
    }
    layout::get(cells, layout::LIMITS, p, layout::LOWEST) <= limit
}

// Puts a limit for pair p, unless one stands there that is as low.
fn lower(cells: &mut [u16], p: usize, limit: usize)
    requires { (p ≤ max_pairs) × (limit < 65536) × (work_need ≤ length cells.old) }
    ensures { mem_of cells.new ≡ lower_m p limit (mem_of cells.old) }
{
    if !is_low(cells, p, limit) {
        layout::put(cells, layout::LIMITS, p, layout::LIMITED, 1);
        layout::put(cells, layout::LIMITS, p, layout::LOWEST, limit);
    }
}

// Table c over x and y.
pub fn put_table(cells: &mut [u16], x: usize, y: usize, c: usize)
    requires { (x < max_variables) × (y < max_variables) × (c < max_constraints) × (work_need ≤ length cells.old) }
    ensures { mem_of cells.new ≡ table_m x y c (mem_of cells.old) }
{
    number(cells, x, y);
    let p = pair(cells, x, y);
    chain(cells, p, c);
}

// A limit over x and y.
pub fn put_limit(cells: &mut [u16], limit: usize, x: usize, y: usize)
    requires { (x < max_variables) × (y < max_variables) × (limit < 65536) × (work_need ≤ length cells.old) }
    ensures { mem_of cells.new ≡ limit_m limit x y (mem_of cells.old) }
{
    number(cells, x, y);
    let p = pair(cells, x, y);
    lower(cells, p, limit);
}
