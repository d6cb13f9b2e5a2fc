// The runs that the library delivers: the turn run and the round run. Neither asks anything of its caller. The plan check, which is
// delivered beside them, is the parser's.
#![tactic(auto)]

ghost use Rattle.std.specs.Prelude.{◌≡◌};
ghost use Rattle.lending.specs.Call.{Gives};
ghost use Rattle.disac4.specs.Outcome.{lent, input_fault, run_of, turn_run, round_run};
ghost use Rattle.plan.specs.Answer.{check_of};

use disac4::Report;
use faults::{Decline, Fault, decline_at};
use plan::Counts;

// The tests of a plan and a turn list in their order: 11, the plan's own, 12. Gives the first fault, or the plan's counts.
fn check_inputs(plan: &[u8], turns: &[u8]) -> Result<Counts, Decline>
    ensures { result ≡ check_of plan.now (input_fault plan.now turns.now) }
{
    if !inputs::list_fits(turns) {
        return Err(decline_at(Fault::BadTurnList, 0));
    }
    let counts = parser::check_plan(plan)?;
    match inputs::first_bad(turns, counts.workers) {
        Some(bad) => Err(decline_at(Fault::BadTurn, bad)),
        None => Ok(counts),
    }
}

// Plays the turns of the list on a plan, and gives the report; declines as document 01 lists: 9, 10, 11, the plan's own, 12.
pub fn run_turns(
    plan: &[u8],
    turns: &[u8],
    work: &mut [u16],
    lists: &mut [u16],
) -> Result<Report, Decline>
    ensures { Gives (run_of (turn_run plan.now turns.now) (lent work.old lists.old)) result (lent work.new lists.new) }
{
    inputs::check_buffers(work, lists).map_err(|fault| decline_at(fault, 0))?;
    let counts = check_inputs(plan, turns)?;
    Ok(runs::play_list(plan, turns, work, lists, counts.workers))
}

// Plays rounds on a plan until it is closed, and gives the report; declines without a turn list: 9, 10, the plan's own.
pub fn run_round(plan: &[u8], work: &mut [u16], lists: &mut [u16]) -> Result<Report, Decline>
    ensures { Gives (run_of (round_run plan.now) (lent work.old lists.old)) result (lent work.new lists.new) }
{
    inputs::check_buffers(work, lists).map_err(|fault| decline_at(fault, 0))?;
    let counts = parser::check_plan(plan)?;
    Ok(runs::play_until_closed(plan, work, lists, counts.workers))
}
