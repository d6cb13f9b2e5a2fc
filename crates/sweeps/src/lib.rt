// The slow engine's two calls (document 02, job 2): the sweeps of a plan, and the part of a buffer that holds the last one. Neither asks
// anything of its caller.
#![tactic(auto)]

ghost use Rattle.std.specs.Prelude.{[], ◌∷◌, ◌≡◌};
ghost use Rattle.faults.specs.CheckList.{first_fault, verdict_of};
ghost use Rattle.lending.specs.Call.{Gives, buffer_checks, outcome_of};
ghost use Rattle.sweeping.specs.Outcome.{two_lists, first_buffer, second_buffer, sweep_call, part_of, last_sweep};

use disac4::LIST_NEED;
use faults::{Decline, Fault, decline_at};
use lending::check_length;
use sweeping::sweep_plan;

// 10: whether both buffers are long enough.
fn check_lists(first: &[u16], second: &[u16]) -> Result<(), Fault>
    ensures { result ≡ verdict_of (first_fault (buffer_checks (first_buffer ∷ second_buffer ∷ []) (two_lists first.now second.now))) }
{
    check_length(first, LIST_NEED, Fault::ShortLists)?;
    check_length(second, LIST_NEED, Fault::ShortLists)
}

// Plays the sweeps of a plan between two list buffers, and gives their number; declines 10, then as the plan check does.
pub fn run_sweeps(plan: &[u8], first: &mut [u16], second: &mut [u16]) -> Result<usize, Decline>
    ensures { Gives (outcome_of (sweep_call plan.now) (two_lists first.old second.old)) result (two_lists first.new second.new) }
{
    check_lists(first, second).map_err(|fault| decline_at(fault, 0))?;
    parser::check_plan(plan)?;
    Ok(sweep_plan(plan, first, second))
}

// That many cells from the start, or an empty part if there are fewer.
fn part<'a>(cells: &'a [u16], count: usize) -> &'a [u16]
    ensures { result.now ≡ part_of count cells.now }
{
    if count <= cells.len() {
        &cells[..count]
    } else {
        &cells[..0]
    }
}

// So many cells from the start of the buffer that holds the last sweep, the second after an odd number of sweeps, else the first; or
// an empty part if it has fewer.
pub fn last_sweep<'a>(first: &'a [u16], second: &'a [u16], sweeps: usize, count: usize) -> &'a [u16]
    ensures { result.now ≡ last_sweep sweeps count (two_lists first.now second.now) }
{
    if sweeps % 2 == 1 {
        part(second, count)
    } else {
        part(first, count)
    }
}
