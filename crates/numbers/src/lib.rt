// The answers as numbers: 0 and the answer, or a decline's number and place, and zeros behind them.
#![tactic(auto)]

ghost use Rattle.std.specs.Prelude.{◌≡◌};
ghost use Rattle.numbers.specs.Numbers.{status_number, checked_numbers, answer_numbers, swept_numbers, part_numbers};

use disac4::{Report, Status};
use faults::Decline;
use plan::Counts;

// C's number for a status. No `From`: that could only stand beside `Status`, in a crate that knows nothing of C.
fn status_number(status: Status) -> usize
    ensures { result ≡ status_number status }
{
    match status {
        Status::Open => 0,
        Status::Closed => 1,
        Status::Bare => 2,
    }
}

// 0, p, n, the number of rules and L; or the decline.
pub fn checked_numbers(checked: Result<Counts, Decline>) -> [usize; 5]
    ensures { result ≡ checked_numbers checked }
{
    match checked {
        Ok(f) => [0, f.workers, f.variables, f.constraints, f.labels],
        Err(d) => [usize::from(d.fault), d.place, 0, 0, 0],
    }
}

// 0 and the report in its order; or the decline.
pub fn answer_numbers(answer: Result<Report, Decline>) -> [usize; 6]
    ensures { result ≡ answer_numbers answer }
{
    match answer {
        Ok(r) => [
            0,
            status_number(r.status),
            r.changes,
            r.sends,
            r.polls,
            r.empty,
        ],
        Err(d) => [usize::from(d.fault), d.place, 0, 0, 0, 0],
    }
}

// 0 and the number of sweeps; or the decline.
pub fn swept_numbers(answer: Result<usize, Decline>) -> [usize; 2]
    ensures { result ≡ swept_numbers answer }
{
    match answer {
        Ok(k) => [0, k],
        Err(d) => [usize::from(d.fault), d.place],
    }
}

// 0, the buffer that holds the last of so many sweeps, and the number of cells that its part has.
pub fn part_numbers(sweeps: usize, cells: usize) -> [usize; 3]
    ensures { result ≡ part_numbers sweeps cells }
{
    if sweeps % 2 == 1 {
        [0, 2, cells]
    } else {
        [0, 1, cells]
    }
}
