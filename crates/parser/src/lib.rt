// The plan check: from a plan's bytes to its counts, or to its first fault and the fault's place.
#![tactic(auto)]

ghost use Rattle.std.specs.Prelude.{◌≡◌};
ghost use Rattle.plan.specs.Answer.{plan_check};

use base::between;
use faults::{Decline, Fault, decline_at};
use format::limits::MAX_VERSION;
use format::version;
use plan::Counts;

mod scan;

// Checks the plan that the bytes hold: its counts, or its first fault and the fault's place.
pub fn check_plan(plan: &[u8]) -> Result<Counts, Decline>
    ensures { result ≡ plan_check plan.now }
{
    if plan.len() == 0 {
        return Err(decline_at(Fault::Truncated, 0));
    }
    if !between(1, MAX_VERSION, version::number(plan)) {
        return Err(decline_at(Fault::BadVersion, 0));
    }
    scan::check_sections(plan)
}
