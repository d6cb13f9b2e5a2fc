// A plan's bytes: where its parts stand, how they are read, what its version fixes, and how many parts there may be; and how a list
// is read from list cells.
#![tactic(auto)]

pub mod constraint;
pub mod kind;
pub mod limits;
pub mod lists;
pub mod read;
pub mod version;
mod words;
