// The checks of a constraint's section (document 01: a rule). A section is a plan and a place (`format::read` says why), and so are the
// places of the variables' sections: `check_constraint`, which PROMISES names, takes any for which `VariablesKnown` holds.
ghost use Rattle.std.specs.Prelude.{◌≡◌, true, ℕ, suc, ◌≤◌, ◌<◌, ◌^◌, ltb, length, drop};
ghost use Rattle.base.specs.Below.{all_below};
ghost use Rattle.format.specs.Format.{constraint_start, table_row_at};
ghost use Rattle.format.specs.Limits.{max_values, max_pairs};
ghost use Rattle.format.specs.Version.{row_words};
ghost use Rattle.plan.specs.Check.{variables_in_order, has_count, constraint_length, table_fits, constraint_checks};
ghost use Rattle.touching.specs.Touching.{Touching};
ghost use Rattle.sections.specs.Judged.{Judged};
ghost use Rattle.sections.specs.Known.{VariablesKnown};

use crate::scope::{further_in_order, variables_in_order};
use crate::section;
use crate::section::Starts;
use crate::variable::numbered_size;
use base::power;
use faults::Fault;
use format::kind::Kind;
use format::limits::{MAX_FURTHER, MAX_WORDS};
use format::{constraint, version};
use reader::word_at;
use touching::Touched;

// A set rule has room for its limit and its count.
fn has_count(plan: &[u8], at: usize) -> bool
    requires { at ≤ length plan.now }
    ensures { result ≡ has_count plan.now at }
{
    if Kind::at(plan, at) != Some(Kind::SetLimit) {
        return true;
    }
    6 <= word_at(plan, at)
}

// The length that the constraint's content calls for.
fn constraint_length(plan: &[u8], at: usize, starts: &Starts) -> usize
    requires { VariablesKnown plan.now starts.now × (at ≤ length plan.now) × (variables_in_order plan.now at ≡ true) }
    ensures { result ≡ constraint_length plan.now at }
{
    match Kind::at(plan, at) {
        Some(Kind::Table) => {
            3 + version::row_bytes(plan) * numbered_size(plan, starts, constraint::first(plan, at))
        }
        Some(Kind::Limit) => 5,
        Some(Kind::SetLimit) => 6 + constraint::further_count(plan, at),
        None => 5, // no such kind: declined before
    }
}

// No row of a table holds a value from `width` on. A loop, since no short proof ties `all` of a range to the definition.
fn rows_fit(plan: &[u8], words: usize, at: usize, rows: usize, width: usize) -> bool
    requires { (words ≡ row_words plan.now) × (at ≤ length plan.now) × (rows ≤ max_values) × (width ≤ max_values) }
    ensures { result ≡ all_below rows (λ v. ltb (table_row_at plan.now at v) (2 ^ width)) }
{
    let limit = power(width);
    for v in 0..rows {
        if limit <= constraint::table_row(plan, words, at, v) {
            return false;
        }
    }
    true
}

// No bit of a table stands at or past the second variable's count. The compiler makes more of the rows where it knows how many
// words they have, so it is told.
fn table_fits(plan: &[u8], at: usize, starts: &Starts) -> bool
    requires { VariablesKnown plan.now starts.now × (at ≤ length plan.now) × (variables_in_order plan.now at ≡ true) }
    ensures { result ≡ table_fits plan.now at }
{
    if Kind::at(plan, at) != Some(Kind::Table) {
        return true;
    }
    let rows = numbered_size(plan, starts, constraint::first(plan, at));
    let width = numbered_size(plan, starts, constraint::second(plan, at));
    if version::row_words(plan) == 1 {
        return rows_fit(plan, 1, at, rows, width);
    }
    rows_fit(plan, MAX_WORDS, at, rows, width)
}

// What stands behind the first two variables: of a set rule 3 (length under 6), 4 (count), 3, 5 (further variables); of any other 3,
// 7 (bits); last, 4 (pairs). Pairs are touched before the bits are judged: where a constraint fails, nothing is promised of them.
fn check_content(
    plan: &[u8],
    at: usize,
    starts: &Starts,
    touched: &mut Touched,
) -> Result<(), Fault>
    requires { VariablesKnown plan.now starts.now × (at ≤ length plan.now) × (variables_in_order plan.now at ≡ true) × (touched.old.pairs ≤ max_pairs) }
    ensures { (r : ℕ) → at ≡ constraint_start plan.now r → Touching plan.now r touched.old.rows touched.old.pairs → Judged plan.now (suc r) (drop 4 (constraint_checks plan.now (suc r) at)) result touched.new.rows touched.new.pairs }
{
    let length = word_at(plan, at);
    let further = constraint::further_count(plan, at);
    let called_for = constraint_length(plan, at, starts);
    if !has_count(plan, at) {
        return Err(Fault::BadLength); // no room for the count
    }
    if MAX_FURTHER < further {
        return Err(Fault::BadCount); // too many further
    }
    if length != called_for {
        return Err(Fault::BadLength); // not as the content
    }
    if !further_in_order(plan, at) {
        return Err(Fault::BadNumber);
    }
    let fits = table_fits(plan, at, starts);
    let few = touched.few_pairs(plan, at);
    if !fits {
        return Err(Fault::BadConstraint); // a bit too far
    }
    if !few {
        return Err(Fault::BadCount); // too many pairs
    }
    Ok(())
}

// A constraint's section: 1, 3 (length under 3), 7 (kind), 5 (first two variables), and what its content is checked for. `touched`
// comes as the constraints before it left it, and takes its own pairs in.
pub fn check_constraint(
    plan: &[u8],
    at: usize,
    starts: &Starts,
    touched: &mut Touched,
) -> Result<(), Fault>
    requires { VariablesKnown plan.now starts.now × (at ≤ length plan.now) × (touched.old.pairs ≤ max_pairs) }
    ensures { (r : ℕ) → at ≡ constraint_start plan.now r → Touching plan.now r touched.old.rows touched.old.pairs → Judged plan.now (suc r) (constraint_checks plan.now (suc r) at) result touched.new.rows touched.new.pairs }
{
    let length = word_at(plan, at);
    let kind = constraint::kind(plan, at);
    let most = version::max_kind(plan);
    if !section::complete(plan, at) {
        return Err(Fault::Truncated);
    }
    if length < 3 {
        return Err(Fault::BadLength); // no room for the kind
    }
    if most < kind {
        return Err(Fault::BadConstraint); // no such kind
    }
    if !variables_in_order(plan, at) {
        return Err(Fault::BadNumber);
    }
    check_content(plan, at, starts, touched)
}
