// Rows of bits; as definitions, reads in a list of bytes, loops below a bound and updates too.
#![tactic(auto)]

ghost use Rattle.std.specs.Prelude.{Bool, cond, ◌≡◌, ℕ, ◌%◌, ◌<◌, ◌≤◌, ◌^◌};
ghost use Rattle.base.specs.Choice.{between as between_of};
ghost use Rattle.base.specs.Row.{bit, row_of, row_count};

// The row of value k alone: 2 to the k.
pub fn power(k: usize) -> usize
    requires { k < 64 }
    ensures { result ≡ 2 ^ k }
{
    1 << k
}

// Whether a row holds value k.
pub fn row_holds(row: usize, k: usize) -> bool
    requires { k < 64 }
    ensures { result ≡ bit row k }
{
    (row >> k) % 2 == 1
}

// The row of value k alone, or the empty row.
pub fn row_if(held: bool, k: usize) -> usize
    requires { k < 64 }
    ensures { result ≡ cond held (2 ^ k) 0 }
{
    if held { power(k) } else { 0 }
}

// The row of the values below n that pass a test. From the last one down the row is doubled: that is quicker than to shift
// each bit to its place.
pub fn row_where<F: Fn(usize) -> bool>(n: usize, test: F) -> usize
    requires few { n ≤ 64 }
    requires callable { (k : ℕ) → k < n → F.pre test k }
    ensures { (passes : ℕ → Bool) → ((k : ℕ) → k < n → (held : Bool) → F.post test k held → held ≡ passes k) → result ≡ row_of n passes }
{
    let mut row = 0;
    for k in (0..n).rev() {
        row = 2 * row + usize::from(test(k));
    }
    row
}

// How many values row k of four values holds, for each k below 16: in bits 4k to 4k + 3.
const OF_FOUR: usize = 0x4332_3221_3221_2110;

// How many of the values 0 to 3 a row holds.
fn count_four(row: usize) -> usize
    ensures { result ≡ row_count 4 (row % 16) }
{
    (OF_FOUR >> (4 * (row % 16))) % 16
}

// How many values a row holds, at any width that it fits: the values 0 to 3 of the rest are counted and the others moved down
// by four, until none is left.
// Not `count_ones`: that this is a loop is promised (docs/PROMISES.md, job 3).
pub fn row_count(row: usize) -> usize
    ensures { (width : ℕ) → row < 2 ^ width → result ≡ row_count width row }
{
    let mut rest = row;
    let mut count = 0;
    while rest != 0 {
        count += count_four(rest);
        rest /= 16;
    }
    count
}

// Whether x lies from low to high.
pub fn between(low: usize, high: usize, x: usize) -> bool
    ensures { result ≡ between_of low high x }
{
    low <= x && x <= high
}
