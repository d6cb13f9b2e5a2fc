// Rows of values written into lent list cells, one variable's behind the other's.
#![tactic(auto)]

ghost use Rattle.std.specs.Prelude.{◌≡◌, ◌<◌, ◌≤◌, length};
ghost use Rattle.disac4.specs.Need.{list_need};
ghost use Rattle.format.specs.Limits.{max_words, max_variables};
ghost use Rattle.listing.specs.ListCells.{put_row};

// Puts the row of variable x into its cells, word after word from the lowest.
pub fn put_row(lists: &mut [u16], words: usize, x: usize, row: usize)
    requires { (words ≤ max_words) × (x < max_variables) × (list_need ≤ length lists.old) }
    ensures { lists.new ≡ put_row words x row lists.old }
{
    let start = words * x;
    let mut rest = row;
    for k in (0..words).rev() {
        lists[start + k] = (rest % 65536) as u16;
        rest /= 65536;
    }
}
