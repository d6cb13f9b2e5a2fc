// The needed work cells become 0: before a run, so that nothing of it depends on what they held, and after it.
// Cells are a slice: `cells::layout` says why.
ghost use Rattle.std.specs.Prelude.{◌≡◌, ◌≤◌, length, replicate};
ghost use Rattle.lending.specs.Call.{overwrite};
ghost use Rattle.disac4.specs.Need.{work_need};

use disac4::WORK_NEED;

pub fn clear(cells: &mut [u16])
    requires { work_need ≤ length cells.old }
    ensures { cells.new ≡ overwrite (replicate work_need 0) cells.old }
{
    cells[..WORK_NEED].fill(0);
}
