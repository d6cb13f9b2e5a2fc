// The checks of single sections: of the head, of a variable and of a constraint.
#![tactic(auto)]

pub mod constraint;
mod scope;
pub mod section;
pub mod variable;
