// Whether the numbers in a constraint's scope (document 01: the slots of a rule) are in order.
ghost use Rattle.std.specs.Prelude.{◌≡◌, ◌≤◌, length};
ghost use Rattle.format.specs.Format.{further_count};
ghost use Rattle.format.specs.Limits.{max_further};
ghost use Rattle.plan.specs.Check.{variables_in_order, further_in_order};

use format::{constraint, read};

// The first two are in range, and the first is the smaller.
pub fn variables_in_order(plan: &[u8], at: usize) -> bool
    requires { at ≤ length plan.now }
    ensures { result ≡ variables_in_order plan.now at }
{
    let first = constraint::first(plan, at);
    let second = constraint::second(plan, at);
    if first < 1 {
        return false;
    }
    if second <= first {
        return false;
    }
    second <= read::variable_count(plan)
}

// Each further one is above the one before it, and in range.
pub fn further_in_order(plan: &[u8], at: usize) -> bool
    requires { (at ≤ length plan.now) × (further_count plan.now at ≤ max_further) }
    ensures { result ≡ further_in_order plan.now at }
{
    let further = constraint::further_count(plan, at);
    let most = read::variable_count(plan);
    let mut last = constraint::scope_at(plan, at, 1);
    for i in 0..further {
        let number = constraint::scope_at(plan, at, i + 2);
        if number <= last {
            return false;
        }
        if most < number {
            return false;
        }
        last = number;
    }
    true
}
