// Numbers of 16-bit words, as a row of values stands in a plan's bytes and in list cells.
ghost use Rattle.std.specs.Prelude.{◌≡◌, ℕ, ◌<◌, ◌≤◌};
ghost use Rattle.base.specs.Digits.{number_of};
ghost use Rattle.format.specs.Limits.{word_bits, max_words};

// The number of so many words, the highest first.
pub fn of_words<F: Fn(usize) -> usize>(words: usize, word: F) -> usize
    requires few { words ≤ max_words }
    requires callable { (k : ℕ) → k < words → F.pre word k }
    requires low { (k : ℕ) → k < words → (value : ℕ) → F.post word k value → value < 65536 }
    ensures { (part : ℕ → ℕ) → ((k : ℕ) → k < words → (value : ℕ) → F.post word k value → value ≡ part k) → result ≡ number_of word_bits part words }
{
    let mut row = 0;
    for k in 0..words {
        row = row * 65536 + word(k);
    }
    row
}
