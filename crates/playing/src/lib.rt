// Plays the turns of a list one after the other, and passes over those that are known to be idle.
#![tactic(auto)]

ghost use Rattle.std.specs.Prelude.{true, [], ◌∷◌, ◌≡◌};
ghost use Rattle.std.proofs.Math.Option.{none};
ghost use Rattle.disac4.specs.Turn.{allowed, turn, turn_fault, turns_of};
ghost use Rattle.engine.specs.Play.{Underway, Advances};
ghost use Rattle.playing.specs.Known.{KnownIdle};

use crate::settle::settle;
use engine::run::Run;
use flags::{Table, is_set};
use reader::byte_at;

mod settle;

// One turn more, which is passed over where it is known to be idle.
fn next_turn(run: &mut Run, table: &mut Table, actor: usize, action: usize)
    requires { Underway run.old × (allowed run.old.workers (turn actor action) ≡ true) × KnownIdle run.old.plan.now run.old.cells.now run.old.progress.tally table.old }
    ensures { Advances (turn actor action ∷ []) run.old run.new × KnownIdle run.old.plan.now run.new.cells.now run.new.progress.tally table.new }
{
    if is_set(table, actor, action) {
        return;
    }
    let changes = run.progress.changes;
    run.advance(actor, action);
    if run.progress.changes == changes {
        idle::note(table, actor, action, true);
        return;
    }
    idle::forget(table, actor, action);
    if actor != 0 {
        let cells = &mut *run.cells;
        settle(cells, run.progress.tally, table, actor, action);
    }
}

// Plays the turns of the list, which are all allowed. A turn is read by its place, as the definition `turn_at` reads it.
pub fn play_turns(run: &mut Run, list: &[u8])
    requires { Underway run.old × (turn_fault run.old.workers list.now ≡ none) }
    ensures same_cells { run.new.cells.ghost_name ≡ run.old.cells.ghost_name }
    ensures played { Advances (turns_of list.now) run.old run.new }
{
    let count = list.len() / 2;
    let mut table = idle::none_known();
    for i in 0..count {
        next_turn(
            run,
            &mut table,
            byte_at(list, 2 * i),
            byte_at(list, 2 * i + 1),
        );
    }
}
