// The text of a whole run, from a plan and its turns to the bytes that the program prints.
#![tactic(auto)]

ghost use Rattle.std.specs.Prelude.{[], ◌^◌, ◌<◌, true, false, length, IfSome, IfNone};
ghost use Rattle.lending.specs.Call.{Gives};
ghost use Rattle.disac4.specs.Outcome.{lent, run_of};
ghost use Rattle.display.specs.Shown.{run_by, shown, Shows};

use disac4::{LIST_NEED, Report, WORK_NEED};
use faults::Decline;

// The bytes that every text fits.
pub const TEXT_ROOM: usize = 4096;

// A run by the turn list, or by rounds where there is none.
fn run(
    plan: &[u8],
    turns: Option<&[u8]>,
    work: &mut [u16],
    lists: &mut [u16],
) -> Result<Report, Decline>
    ensures by_turns { IfSome turns.entry (λ list. Gives (run_of (run_by plan.now list.now false) (lent work.old lists.old)) result (lent work.new lists.new)) }
    ensures few { IfSome turns.entry (λ list. length list.now < 2 ^ 64) }
    ensures by_rounds { IfNone turns.entry (Gives (run_of (run_by plan.now [] true) (lent work.old lists.old)) result (lent work.new lists.new)) }
{
    match turns {
        Some(turns) => calls::run_turns(plan, turns, work, lists),
        None => calls::run_round(plan, work, lists),
    }
}

// Puts the whole text of a run, by the turn list or by rounds where there is none, at the buffer's start, and returns how many
// bytes that is: every text fits.
pub fn show(plan: &[u8], turns: Option<&[u8]>, out: &mut [u8; TEXT_ROOM]) -> usize
    ensures by_turns { IfSome turns.entry (λ list. Shows (shown plan.now list.now false) out.old out.new result) }
    ensures by_rounds { IfNone turns.entry (Shows (shown plan.now [] true) out.old out.new result) }
{
    let mut work = [0u16; WORK_NEED];
    let mut lists = [0u16; LIST_NEED];
    let answer = run(plan, turns, &mut work, &mut lists);
    text::print_answer(answer, plan, &lists, out)
}
