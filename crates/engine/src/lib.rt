// Turns played on lent cells, where a plan is loaded, one after the other.
#![tactic(auto)]

pub mod run;
