// A row of values in list cells, a word in each, the higher first.
ghost use Rattle.std.specs.Prelude.{◌≡◌, ◌<◌, ◌≤◌, get_or};
ghost use Rattle.format.specs.Limits.{max_words};
ghost use Rattle.format.specs.Lists.{row_in};

use crate::words::of_words;

// The cell at i, 0 past the end.
fn cell_at(cells: &[u16], i: usize) -> usize
    ensures { (result ≡ get_or cells.now i 0) × (result < 65536) }
{
    if i < cells.len() {
        cells[i] as usize
    } else {
        0
    }
}

// The row of variable x, where each variable has a row of so many words.
pub fn row_at(cells: &[u16], words: usize, x: usize) -> usize
    requires { (words ≤ max_words) × (x < 256) }
    ensures { result ≡ row_in words cells.now x }
{
    let start = words * x;
    of_words(words, |k| cell_at(cells, start + k))
}
