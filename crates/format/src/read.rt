// The parts of the head, and those of a variable, read by the place of its section. Document 01 says kitchen for worker,
// slot for variable, rule for constraint and dish for value.
// A function for each part, here and in `constraint`: they differ in a place alone, and its name is what a reader needs.
// A section is a plan and a place, and no type of its own: `first`, `kind`, `limit` and others that PROMISES names take every place within
// the plan, so a type that says so would ask more of callers.
ghost use Rattle.std.specs.Prelude.{◌≡◌, suc, ◌<◌, ◌≤◌, length};
ghost use Rattle.format.specs.Format.{behind as behind_of, worker_count, variable_count, constraint_count, section_count, owner_at, size_at, code_at, figure_at, values_end};

use reader::{byte_at, word_at, word_inside};

// The place behind the section at `at`.
pub fn behind(plan: &[u8], at: usize) -> usize
    requires { at ≤ length plan.now }
    ensures { result ≡ behind_of plan.now at }
{
    at + 2 + word_at(plan, at)
}

// p: how many workers the head names.
pub fn worker_count(plan: &[u8]) -> usize
    ensures { (result ≡ worker_count plan.now) × (result < 256) }
{
    byte_at(plan, 3)
}

// n: how many variables the head names.
pub fn variable_count(plan: &[u8]) -> usize
    ensures { (result ≡ variable_count plan.now) × (result < 256) }
{
    byte_at(plan, 4)
}

// How many constraints the head names.
pub fn constraint_count(plan: &[u8]) -> usize
    ensures { (result ≡ constraint_count plan.now) × (result < 256) }
{
    byte_at(plan, 5)
}

// How many sections the head calls for: one, and as many as two of its bytes say, so fewer than 512.
pub fn section_count(plan: &[u8]) -> usize
    ensures { (result ≡ section_count plan.now) × (result < 512) }
{
    1 + variable_count(plan) + constraint_count(plan)
}

// The worker that owns a variable.
pub fn owner(plan: &[u8], at: usize) -> usize
    requires { at ≤ length plan.now }
    ensures { (result ≡ owner_at plan.now at) × (result < 256) }
{
    byte_at(plan, at + 2)
}

// A variable's number of values.
pub fn size(plan: &[u8], at: usize) -> usize
    requires { at ≤ length plan.now }
    ensures { (result ≡ size_at plan.now at) × (result < 256) }
{
    byte_at(plan, at + 2 + 1)
}

// The code of a variable's value.
pub fn code(plan: &[u8], at: usize, v: usize) -> usize
    requires { (at ≤ length plan.now) × (v < 256) }
    ensures { (result ≡ code_at plan.now at v) × (result < 65536) }
{
    word_at(plan, at + 4 + 4 * v)
}

// The sodium figure of a variable's value, which stands inside the plan, so that there is no test for the plan's end.
pub fn figure(plan: &[u8], at: usize, v: usize) -> usize
    requires { values_end at (suc v) ≤ length plan.now }
    ensures { (result ≡ figure_at plan.now at v) × (result < 65536) }
{
    word_inside(plan, at + 4 + 4 * v + 2)
}
