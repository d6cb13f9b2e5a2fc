// The archive for C: each function exports the one of its name in tinshrew's `c`, whose clauses it states again.
#![tactic(auto)]

ghost use Rattle.std.specs.Prelude.{◌≡◌};
ghost use Rattle.disac4.specs.Outcome.{lent, run_of, turn_run, round_run};
ghost use Rattle.lending.specs.Call.{outcome_of};
ghost use Rattle.plan.specs.Answer.{plan_check};
ghost use Rattle.numbers.specs.Numbers.{checked_numbers, answer_numbers, swept_numbers, last_sweep_numbers};
ghost use Rattle.sweeping.specs.Outcome.{two_lists, sweep_call};
ghost use Rattle.tinshrew.specs.Linked.{interface_version, cells_needed};
ghost use Rattle.tinshrew.specs.Numbers.{GivesNumbers};

use tinshrew::c;

#[unsafe(no_mangle)]
pub extern "C" fn tinshrew_check_plan(plan: &[u8], out: &mut [usize; 5])
    ensures { out.new ≡ checked_numbers (plan_check plan.now) }
{
    c::tinshrew_check_plan(plan, out);
}

#[unsafe(no_mangle)]
pub extern "C" fn tinshrew_run_turns(
    plan: &[u8],
    turns: &[u8],
    work: &mut [u16],
    lists: &mut [u16],
    out: &mut [usize; 6],
)
    ensures { GivesNumbers answer_numbers (run_of (turn_run plan.now turns.now) (lent work.old lists.old)) out.new (lent work.new lists.new) }
{
    c::tinshrew_run_turns(plan, turns, work, lists, out);
}

#[unsafe(no_mangle)]
pub extern "C" fn tinshrew_run_round(
    plan: &[u8],
    work: &mut [u16],
    lists: &mut [u16],
    out: &mut [usize; 6],
)
    ensures { GivesNumbers answer_numbers (run_of (round_run plan.now) (lent work.old lists.old)) out.new (lent work.new lists.new) }
{
    c::tinshrew_run_round(plan, work, lists, out);
}

#[unsafe(no_mangle)]
pub extern "C" fn tinshrew_run_sweeps(
    plan: &[u8],
    first: &mut [u16],
    second: &mut [u16],
    out: &mut [usize; 2],
)
    ensures { GivesNumbers swept_numbers (outcome_of (sweep_call plan.now) (two_lists first.old second.old)) out.new (two_lists first.new second.new) }
{
    c::tinshrew_run_sweeps(plan, first, second, out);
}

#[unsafe(no_mangle)]
pub extern "C" fn tinshrew_last_sweep<'a>(
    first: &'a [u16],
    second: &'a [u16],
    sweeps: usize,
    count: usize,
    out: &mut [usize; 3],
)
    ensures { out.new ≡ last_sweep_numbers sweeps count (two_lists first.now second.now) }
{
    c::tinshrew_last_sweep(first, second, sweeps, count, out);
}

#[unsafe(no_mangle)]
pub extern "C" fn tinshrew_version() -> usize
    ensures { result ≡ interface_version }
{
    c::tinshrew_version()
}

#[unsafe(no_mangle)]
pub extern "C" fn tinshrew_cells(buffer: usize) -> usize
    ensures { result ≡ cells_needed buffer }
{
    c::tinshrew_cells(buffer)
}
