// What the checks of every kind of section share, and the checks of the head.
ghost use Rattle.std.specs.Prelude.{◌≡◌, ◌≤◌, length};
ghost use Rattle.plan.specs.Check.{complete as complete_of, head_in_range, head_checks};
ghost use Rattle.faults.specs.CheckList.{first_fault, verdict_of};

use base::between;
use faults::Fault;
use format::limits::{MAX_CONSTRAINTS, MAX_VARIABLES, MAX_WORKERS};
use format::read;
use reader::word_at;

// As many places as there are of the head and of the variables.
pub const STARTS: usize = 1 + MAX_VARIABLES;

// Where the sections of the head and of the variables start.
pub type Starts = [usize; STARTS];

// Neither the section nor its length is cut off.
pub fn complete(plan: &[u8], at: usize) -> bool
    requires { at ≤ length plan.now }
    ensures { result ≡ complete_of plan.now at }
{
    read::behind(plan, at) <= plan.len()
}

// p, n and the number of rules are in range.
fn head_in_range(plan: &[u8]) -> bool
    ensures { result ≡ head_in_range plan.now }
{
    if !between(1, MAX_WORKERS, read::worker_count(plan)) {
        return false;
    }
    if !between(1, MAX_VARIABLES, read::variable_count(plan)) {
        return false;
    }
    read::constraint_count(plan) <= MAX_CONSTRAINTS
}

// The head: 1, 3, 4.
pub fn check_head(plan: &[u8], at: usize) -> Result<(), Fault>
    requires { at ≤ length plan.now }
    ensures { result ≡ verdict_of (first_fault (head_checks plan.now at)) }
{
    if !complete(plan, at) {
        return Err(Fault::Truncated);
    }
    if word_at(plan, at) != 3 {
        return Err(Fault::BadLength);
    }
    if !head_in_range(plan) {
        return Err(Fault::BadCount);
    }
    Ok(())
}
