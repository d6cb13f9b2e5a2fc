// The limits of documents 01 and 02: the numbers of specs/Limits.antt.

// The highest version; the lowest is 1.
pub const MAX_VERSION: usize = 2;

// Kitchens.
pub const MAX_WORKERS: usize = 8;

// Slots.
pub const MAX_VARIABLES: usize = 32;

// Bits of a word of a row, and the word's bytes.
pub const WORD_BITS: usize = 16;

pub const WORD_BYTES: usize = 2;

// Words of a row, in any version.
pub const MAX_WORDS: usize = 2;

// Dishes of a slot, in any version.
pub const MAX_VALUES: usize = WORD_BITS * MAX_WORDS;

// Labels of a plan.
pub const MAX_LABELS: usize = 512;

// Rules.
pub const MAX_CONSTRAINTS: usize = 128;

// Different pairs of slots that the rules of a plan touch.
pub const MAX_PAIRS: usize = 128;

// Slots of a set rule behind its first two.
pub const MAX_FURTHER: usize = 6;

// Slots of a rule.
pub const MAX_SCOPE: usize = 2 + MAX_FURTHER;
