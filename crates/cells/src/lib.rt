// The work cells: where each part of a state stands, and the lists that workers keep in them.
#![tactic(auto)]

pub mod clear;
pub mod layout;
pub mod queues;

// A part of the work cells: rows of as many columns, from a fixed place on. In a halved region two rows share their cells: an
// even one has the low bytes, and the odd one behind it the high bytes.
#[derive(Clone, Copy)]
pub struct Region {
    pub id: usize,
    pub base: usize,
    pub rows: usize,
    pub cols: usize,
    pub halved: bool,
}
