// The same calls for C, which include/tinshrew.h explains. Each writes its answer as numbers into `out`: 0 and the answer, or a
// decline's number and place, and zeros behind them. Two more tell a caller that was compiled against another header which
// library it is linked with.
ghost use Rattle.std.specs.Prelude.{◌≡◌};
ghost use Rattle.disac4.specs.Outcome.{lent, run_of, turn_run, round_run};
ghost use Rattle.lending.specs.Call.{outcome_of};
ghost use Rattle.plan.specs.Answer.{plan_check};
ghost use Rattle.numbers.specs.Numbers.{checked_numbers, answer_numbers, swept_numbers, last_sweep_numbers};
ghost use Rattle.sweeping.specs.Outcome.{two_lists, sweep_call};
ghost use Rattle.tinshrew.specs.Linked.{interface_version, cells_needed};
ghost use Rattle.tinshrew.specs.Numbers.{GivesNumbers};

use disac4::{LIST_NEED, WORK_NEED};
use numbers::{answer_numbers, checked_numbers, part_numbers, swept_numbers};
use sweeps::last_sweep;

const VERSION: usize = 2;

// The lent buffers, as tinshrew_cells is asked for them.
const WORK: usize = 1;

const LISTS: usize = 2;

// `check_plan`, as numbers.
pub fn tinshrew_check_plan(plan: &[u8], out: &mut [usize; 5])
    ensures { out.new ≡ checked_numbers (plan_check plan.now) }
{
    *out = checked_numbers(parser::check_plan(plan));
}

// `run_turns`, as numbers.
pub fn tinshrew_run_turns(
    plan: &[u8],
    turns: &[u8],
    work: &mut [u16],
    lists: &mut [u16],
    out: &mut [usize; 6],
)
    ensures { GivesNumbers answer_numbers (run_of (turn_run plan.now turns.now) (lent work.old lists.old)) out.new (lent work.new lists.new) }
{
    *out = answer_numbers(calls::run_turns(plan, turns, work, lists));
}

// `run_round`, as numbers.
pub fn tinshrew_run_round(plan: &[u8], work: &mut [u16], lists: &mut [u16], out: &mut [usize; 6])
    ensures { GivesNumbers answer_numbers (run_of (round_run plan.now) (lent work.old lists.old)) out.new (lent work.new lists.new) }
{
    *out = answer_numbers(calls::run_round(plan, work, lists));
}

// `run_sweeps`, as numbers.
pub fn tinshrew_run_sweeps(plan: &[u8], first: &mut [u16], second: &mut [u16], out: &mut [usize; 2])
    ensures { GivesNumbers swept_numbers (outcome_of (sweep_call plan.now) (two_lists first.old second.old)) out.new (two_lists first.new second.new) }
{
    *out = swept_numbers(sweeps::run_sweeps(plan, first, second));
}

// `last_sweep`, as numbers: which buffer the part is of, and how many cells it has from that buffer's start. A function for C
// can return no part of a buffer.
pub fn tinshrew_last_sweep<'a>(
    first: &'a [u16],
    second: &'a [u16],
    sweeps: usize,
    count: usize,
    out: &mut [usize; 3],
)
    ensures { out.new ≡ last_sweep_numbers sweeps count (two_lists first.now second.now) }
{
    *out = part_numbers(sweeps, last_sweep(first, second, sweeps, count).len());
}

// The version of this interface.
pub fn tinshrew_version() -> usize
    ensures { result ≡ interface_version }
{
    VERSION
}

// How many cells of a lent buffer the calls need; 0 for a number that no buffer has. For C buffers have numbers.
pub fn tinshrew_cells(buffer: usize) -> usize
    ensures { result ≡ cells_needed buffer }
{
    if buffer == WORK {
        WORK_NEED
    } else if buffer == LISTS {
        LIST_NEED
    } else {
        0
    }
}
