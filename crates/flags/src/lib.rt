// A table with a flag for each turn: a cell for each actor and action.
#![tactic(auto)]

ghost use Rattle.std.specs.Prelude.{◌≡◌, ◌<◌};
ghost use Rattle.flags.specs.Flags.{actors, actions, cell_at};

use disac4::POLL_ACTION;
use format::limits::MAX_WORKERS;

// The controller, and as many workers as there may be.
pub const ACTORS: usize = 1 + MAX_WORKERS;
// The actions have the numbers from 0 to that of a poll.
pub const ACTIONS: usize = 1 + POLL_ACTION;
// How many cells a table has.
pub const CELLS: usize = ACTORS * ACTIONS;

// The cells, actor after actor.
pub type Table = [bool; CELLS];

// Whether the flag of actor k's action d is set.
pub fn is_set(table: &Table, k: usize, d: usize) -> bool
    requires { (k < actors) × (d < actions) }
    ensures { result ≡ cell_at table.now k d }
{
    table[k * ACTIONS + d]
}
