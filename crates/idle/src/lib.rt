// Which turns are known to be idle: a table with a flag for each. A list of turns passes over those turns.
#![tactic(auto)]

ghost use Rattle.std.specs.Prelude.{false, ◌&&◌, ◌≡◌, ℕ, ◌<◌, leb, eqb, length};
ghost use Rattle.disac4.specs.Turn.{turn, treat_action};
ghost use Rattle.flags.specs.Flags.{actors, actions, cell_count, cell_at};
ghost use Rattle.idle.specs.Table.{Puts, enables};

use disac4::{ANSWER_ACTION, POLL_ACTION, SEND_ACTION, TREAT_ACTION};
use flags::{ACTIONS, ACTORS, CELLS, Table};

// Of no turn anything is known.
pub fn none_known() -> Table
    ensures { (length result ≡ cell_count) × ((k d : ℕ) → k < actors → d < actions → cell_at result k d ≡ false) }
{
    [false; CELLS]
}

// Notes whether actor k's action d is known to be idle.
pub fn note(table: &mut Table, k: usize, d: usize, idle: bool)
    requires { (k < actors) × (d < actions) }
    ensures { Puts idle (λ j a. eqb j k && eqb a d) table.old table.new }
{
    table[k * ACTIONS + d] = idle;
}

// Nothing is known any more of what actor k does but read.
fn forget_own(table: &mut Table, k: usize)
    requires { k < actors }
    ensures { Puts false (λ j a. eqb j k && leb treat_action a) table.old table.new }
{
    note(table, k, TREAT_ACTION, false);
    note(table, k, SEND_ACTION, false);
    note(table, k, ANSWER_ACTION, false);
    note(table, k, POLL_ACTION, false);
}

// Nor of the reads from actor k.
fn forget_reads(table: &mut Table, k: usize)
    requires { k < actors }
    ensures { Puts false (λ j a. eqb a k) table.old table.new }
{
    for j in 0..ACTORS {
        note(table, j, k, false);
    }
}

// Nor of any turn that may find something to do, where actor k's action d has changed something.
pub fn forget(table: &mut Table, k: usize, d: usize)
    requires { (k < actors) × (d < actions) }
    ensures { Puts false (λ j a. enables (turn k d) (turn j a)) table.old table.new }
{
    note(table, k, d, false);
    forget_own(table, k);
    if TREAT_ACTION < d {
        forget_reads(table, k);
    }
}
