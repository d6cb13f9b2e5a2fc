// A text, put byte by byte into a lent buffer.
#![tactic(auto)]

ghost use Rattle.std.specs.Prelude.{◌≡◌, [], ◌∷◌};
ghost use Rattle.buffer.specs.Taken.{Begins, Takes};
ghost use Rattle.buffer.specs.Decimal.{decimal, spaced as spaced_text};

// A text on its way into a lent buffer: the buffer's cells, and the place of the next byte. Words and numbers are put by hand:
// what `write!` promises of a text holds only where it gives Ok, and nothing promises that it does.
#[derive(Drop)]
pub struct Text<'a> {
    cells: &'a mut [u8],
    at: usize,
}

impl<'a> Text<'a> {
    // No text yet: the next byte comes to the buffer's start.
    pub fn new(cells: &'a mut [u8]) -> Text<'a>
        ensures { Begins cells.entry result }
    {
        Text { cells, at: 0 }
    }

    // How many bytes the buffer has taken.
    pub fn len(&self) -> usize
        ensures { result ≡ self.now.at }
    {
        self.at
    }

    // One byte, dropped where the buffer is full.
    pub fn push(&mut self, byte: u8)
        ensures { Takes (byte ∷ []) self.old self.new }
    {
        if self.at < self.cells.len() {
            self.cells[self.at] = byte;
            self.at += 1;
        }
    }

    // A word's bytes.
    pub fn push_word(&mut self, word: &[u8])
        ensures { Takes word.now self.old self.new }
    {
        for byte in word {
            self.push(*byte);
        }
    }

    // A number in decimal digits, highest first.
    pub fn push_number(&mut self, n: usize)
        ensures { Takes (decimal n) self.old self.new }
    {
        if n >= 10 {
            self.push_number(n / 10);
        }
        self.push(b'0' + (n % 10) as u8);
    }

    // A number after a space.
    pub fn push_spaced(&mut self, n: usize)
        ensures { Takes (spaced_text n) self.old self.new }
    {
        self.push(b' ');
        self.push_number(n);
    }
}
