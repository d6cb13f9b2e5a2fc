// The library that is delivered: the plan check, the turn run, the round run and the slow engine's two calls, for Rattle and for
// C. None of them asks anything of its caller; what a caller may conclude from their contracts is in specs/:
// Conclusions, with Numbers for C, and Sweeps for the slow engine.
#![tactic(auto)]

pub use calls::{run_round, run_turns};
pub use parser::check_plan;
pub use sweeps::{last_sweep, run_sweeps};

pub mod c;
