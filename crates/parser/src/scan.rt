// The sections of a plan in turn.
ghost use Rattle.std.specs.Prelude.{◌≡◌, ◌+◌, ◌≤◌, length, set};
ghost use Rattle.format.specs.Format.{section_start};
ghost use Rattle.network.specs.Network.{label_count};
ghost use Rattle.plan.specs.Check.{section_checks};
ghost use Rattle.plan.specs.Decode.{plan_of, plan_end, trailing_fault, sections_fault};
ghost use Rattle.touching.specs.Touching.{Touching};
ghost use Rattle.sections.specs.Judged.{Judged};
ghost use Rattle.sections.specs.Known.{start_count};
ghost use Rattle.parser.specs.Known.{PassedBefore, labels_before, constraints_before};
ghost use Rattle.format.specs.Limits.{max_labels};
ghost use Rattle.plan.specs.Network.{network_of};
ghost use Rattle.plan.specs.Answer.{check_of};

use base::between;
use faults::{Decline, Fault, decline_at};
use format::read;
use plan::Counts;
use sections::section::{STARTS, Starts};
use sections::{constraint, section, variable};
use touching::Touched;

// Room for the places of the head and the variables.
fn no_starts() -> Starts
    ensures { length result ≡ start_count }
{
    [0; STARTS]
}

// The place of section k, kept for the head and the variables.
fn keep_start(starts: &mut Starts, k: usize, at: usize)
    requires { length starts.old ≡ start_count }
    ensures { starts.new ≡ set starts.old k at }
{
    if k < STARTS {
        starts[k] = at;
    }
}

// The labels up to section k, from those before it.
fn labels_with(plan: &[u8], k: usize, at: usize, labels: usize) -> usize
    requires { (at ≡ section_start plan.now k) × (at ≤ length plan.now) × (labels ≡ labels_before plan.now k) × (labels ≤ max_labels) }
    ensures { result ≡ labels_before plan.now (k + 1) }
{
    if between(1, read::variable_count(plan), k) {
        labels + read::size(plan, at)
    } else {
        labels
    }
}

// The checks of section k: of the head, a variable or a constraint. `labels` are those up to it; `touched` comes as the constraints
// before it left it.
fn check_section(
    plan: &[u8],
    k: usize,
    at: usize,
    labels: usize,
    starts: &Starts,
    touched: &mut Touched,
) -> Result<(), Fault>
    requires { PassedBefore plan.now starts.now k × (at ≡ section_start plan.now k) × (at ≤ length plan.now) × (1 ≤ length plan.now) × (labels ≡ labels_before plan.now (k + 1)) × Touching plan.now (constraints_before plan.now k) touched.old.rows touched.old.pairs }
    ensures { Judged plan.now (constraints_before plan.now (k + 1)) (section_checks plan.now k) result touched.new.rows touched.new.pairs }
{
    if k == 0 {
        return section::check_head(plan, at);
    }
    if k <= read::variable_count(plan) {
        return variable::check_variable(plan, at, labels);
    }
    constraint::check_constraint(plan, at, starts, touched)
}

// What is left to check behind the last section, which ends at `at`.
fn check_end(plan: &[u8], at: usize, labels: usize) -> Result<Counts, Decline>
    requires { (at ≡ plan_end plan.now) × (labels ≡ label_count (network_of (plan_of plan.now))) }
    ensures { result ≡ check_of plan.now (trailing_fault plan.now) }
{
    if at < plan.len() {
        return Err(decline_at(Fault::TrailingBytes, at));
    }
    Ok(Counts {
        workers: read::worker_count(plan),
        variables: read::variable_count(plan),
        constraints: read::constraint_count(plan),
        labels,
    })
}

// The sections in turn, and what follows them. A head out of range ends the scan at once, so that its counts can be trusted.
pub fn check_sections(plan: &[u8]) -> Result<Counts, Decline>
    requires { 1 ≤ length plan.now }
    ensures { result ≡ check_of plan.now (sections_fault plan.now) }
{
    let count = read::section_count(plan);
    let mut starts = no_starts();
    let mut touched = Touched::none();
    let mut labels = 0;
    let mut at = 1;
    for k in 0..count {
        labels = labels_with(plan, k, at, labels);
        check_section(plan, k, at, labels, &starts, &mut touched).map_err(|fault| decline_at(
            fault, at,
        ))?;
        keep_start(&mut starts, k, at);
        at = read::behind(plan, at);
    }
    check_end(plan, at, labels)
}
