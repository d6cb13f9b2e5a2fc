// The plan's index in the work cells: what it is, and what it gives.
#![tactic(auto)]

pub mod parts;
