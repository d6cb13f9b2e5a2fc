// What a run tests beside its plan: the lent buffers, the length of a turn list, which turns are allowed, and the first that is not.
#![tactic(auto)]

ghost use Rattle.std.specs.Prelude.{[], ◌∷◌, ◌≡◌, ◌/◌, ◌<◌, IfSome, length};
ghost use Rattle.disac4.specs.Turn.{worker_may, controller_may, allowed as allowed_of, turn, turn_fault, turn_list_fits};
ghost use Rattle.inputs.specs.Bad.{bad_turn};
ghost use Rattle.inputs.specs.Judged.{Judges};
ghost use Rattle.faults.specs.CheckList.{first_fault, verdict_of};
ghost use Rattle.lending.specs.Call.{buffer_checks};
ghost use Rattle.disac4.specs.Outcome.{lent, work_buffer, list_buffer};

use base::between;
use disac4::{ANSWER_ACTION, LIST_NEED, MAX_TURN_BYTES, POLL_ACTION, TREAT_ACTION, WORK_NEED};
use faults::Fault;
use flags::{ACTIONS, ACTORS, CELLS, Table, is_set};
use lending::check_length;
use reader::byte_at;

// 9 and 10: whether both buffers are long enough, the work cells first.
pub fn check_buffers(work: &[u16], lists: &[u16]) -> Result<(), Fault>
    ensures { result ≡ verdict_of (first_fault (buffer_checks (work_buffer ∷ list_buffer ∷ []) (lent work.now lists.now))) }
{
    check_length(work, WORK_NEED, Fault::ShortWork)?;
    check_length(lists, LIST_NEED, Fault::ShortLists)
}

// Whether the turn list is of even length and not too long.
pub fn list_fits(turns: &[u8]) -> bool
    ensures { result ≡ turn_list_fits turns.now }
{
    let n = turns.len();
    n % 2 == 0 && n <= MAX_TURN_BYTES
}

// A worker reads from another actor, or treats, sends or answers. Here and below `&` and `|` make both tests, so that there is
// no branch.
fn worker_may(p: usize, actor: usize, action: usize) -> bool
    ensures { result ≡ worker_may p actor action }
{
    ((action <= p) & (action != actor)) | between(TREAT_ACTION, ANSWER_ACTION, action)
}

// The controller reads from a worker, or polls.
fn controller_may(p: usize, action: usize) -> bool
    ensures { result ≡ controller_may p action }
{
    between(1, p, action) | (action == POLL_ACTION)
}

// Whether the actor may take this action, with p workers.
pub fn allowed(p: usize, actor: usize, action: usize) -> bool
    ensures { result ≡ allowed_of p (turn actor action) }
{
    if actor == 0 {
        return controller_may(p, action);
    }
    if p < actor {
        return false;
    }
    worker_may(p, actor, action)
}

// For each actor and action, whether p workers allow it.
fn judge_all(p: usize) -> Table
    ensures { Judges p result }
{
    let mut table = [false; CELLS];
    for i in 0..CELLS {
        table[i] = allowed(p, i / ACTIONS, i % ACTIONS);
    }
    table
}

// The same as `allowed`, looked up: a long list has each turn many times.
fn judged(table: &Table, p: usize, actor: usize, action: usize) -> bool
    requires { Judges p table.now }
    ensures { result ≡ allowed_of p (turn actor action) }
{
    if actor < ACTORS {
        if action < ACTIONS {
            return is_set(table, actor, action);
        }
    }
    allowed(p, actor, action)
}

// The number of the first turn that p workers do not allow, if there is one.
pub fn first_bad(list: &[u8], p: usize) -> Option<usize>
    ensures first { turn_fault p list.now ≡ bad_turn result }
    ensures in_list { IfSome result (λ k. k < length list.now / 2) }
{
    let count = list.len() / 2;
    let table = judge_all(p);
    for k in 0..count {
        if !judged(&table, p, byte_at(list, 2 * k), byte_at(list, 2 * k + 1)) {
            return Some(k);
        }
    }
    None
}
