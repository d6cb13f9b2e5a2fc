// The checks of a variable's section (document 01: a slot).
ghost use Rattle.std.specs.Prelude.{◌≡◌, ℕ, ◌≤◌, length};
ghost use Rattle.plan.specs.Check.{repeats_code, labels_to, variable_checks};
ghost use Rattle.faults.specs.CheckList.{first_fault, verdict_of};
ghost use Rattle.format.specs.Format.{variable_count, numbered_size};
ghost use Rattle.format.specs.Limits.{max_values};
ghost use Rattle.sections.specs.Known.{VariablesKnown};

use crate::section;
use crate::section::Starts;
use base::between;
use faults::Fault;
use format::limits::MAX_LABELS;
use format::{read, version};
use reader::word_at;

// Some value's code stands earlier in the section: the scan ends at the first such value.
fn repeats_code(plan: &[u8], at: usize) -> bool
    requires { at ≤ length plan.now }
    ensures { result ≡ repeats_code plan.now at }
{
    let size = read::size(plan, at);
    let mut found = false;
    'scan: for v in 0..size {
        let code = read::code(plan, at, v);
        for u in 0..v {
            if read::code(plan, at, u) == code {
                found = true;
                break 'scan;
            }
        }
    }
    found
}

// The section of a variable, with which there are so many labels: 1, 3 (length under 2), 4 (its own count), 4 (the labels), 3, 5, 6.
pub fn check_variable(plan: &[u8], at: usize, labels: usize) -> Result<(), Fault>
    requires { at ≤ length plan.now }
    ensures { (s : ℕ) → labels ≡ labels_to plan.now s → result ≡ verdict_of (first_fault (variable_checks plan.now s at)) }
{
    let length = word_at(plan, at);
    let size = read::size(plan, at);
    let most = version::max_size(plan);
    let called_for = 2 + 4 * size;
    if !section::complete(plan, at) {
        return Err(Fault::Truncated);
    }
    if length < 2 {
        return Err(Fault::BadLength); // no room for the count
    }
    if most < size {
        return Err(Fault::BadCount); // too many for the version
    }
    if MAX_LABELS < labels {
        return Err(Fault::BadCount); // too many with it
    }
    if length != called_for {
        return Err(Fault::BadLength); // not as the count calls for
    }
    if !between(1, read::worker_count(plan), read::owner(plan, at)) {
        return Err(Fault::BadNumber);
    }
    if repeats_code(plan, at) {
        return Err(Fault::RepeatedCode);
    }
    Ok(())
}

// How many values the variable with number s has, from 1; `starts` has the places of the sections.
pub fn numbered_size(plan: &[u8], starts: &Starts, s: usize) -> usize
    requires { VariablesKnown plan.now starts.now × (1 ≤ s) × (s ≤ variable_count plan.now) }
    ensures { (result ≡ numbered_size plan.now s) × (result ≤ max_values) }
{
    read::size(plan, starts[s])
}
