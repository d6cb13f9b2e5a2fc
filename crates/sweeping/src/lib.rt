// The slow engine on an accepted plan: sweeps between two lent buffers, until one deletes nothing. A variable's domain stands in
// them as its list, the row of its values.
// Plan and cells are two parameters: `index::parts` says why.
#![tactic(auto)]

ghost use Rattle.std.specs.Prelude.{◌↔◌, ◌≡◌, ◌<◌, ◌≤◌, length};
ghost use Rattle.std.proofs.Math.Option.{none};
ghost use Rattle.disac4.specs.Need.{list_need};
ghost use Rattle.disac4.specs.Report.{row_from, domain_cells};
ghost use Rattle.disac4.specs.System.{network_at};
ghost use Rattle.format.specs.Format.{variable_count};
ghost use Rattle.format.specs.Version.{row_words};
ghost use Rattle.index.specs.Index.{Ready};
ghost use Rattle.lending.specs.Call.{Gives, overwrite};
ghost use Rattle.listing.specs.ListCells.{Shows};
ghost use Rattle.network.specs.Network.{Domains, loaded};
ghost use Rattle.network.specs.Sweep.{sweep as sweep_of, sweep_count};
ghost use Rattle.plan.specs.Decode.{plan_fault};
ghost use Rattle.sweeping.specs.Outcome.{TwoLists, two_lists, after_sweeps, sweep_outcome};
ghost use Rattle.sweeping.specs.Sweeping.{SweepsTo, SweepsAt};

use disac4::WORK_NEED;
use format::limits::MAX_LABELS;
use format::lists::row_at;
use format::read;
use format::version::row_words;
use index::parts;
use listing::put_row;
use revising::revised_row;

// The row of the values of x that a sweep of the lists keeps.
fn sweep_row(plan: &[u8], cells: &[u16], lists: &[u16], x: usize) -> usize
    requires { Ready plan.now cells.now × (x < variable_count plan.now) }
    ensures { (d : Domains) → Shows (row_words plan.now) (network_at plan.now) d lists.now → result ≡ row_from (network_at plan.now) (sweep_of (network_at plan.now) d) x }
{
    let variables = read::variable_count(plan);
    let mut row = row_at(lists, row_words(plan), x);
    for y in 0..variables {
        if parts::linked(cells, x, y) {
            row = revised_row(plan, cells, lists, x, y, row);
        }
    }
    row
}

// One sweep: reads the one buffer and writes the other. It counts the lists that it shortens, so that 0 says that it deletes
// nothing.
fn sweep(plan: &[u8], cells: &[u16], from: &[u16], to: &mut [u16]) -> usize
    requires { Ready plan.now cells.now × (list_need ≤ length from.now) × (list_need ≤ length to.old) }
    ensures { SweepsTo (row_words plan.now) (network_at plan.now) from.now to.old to.new result }
{
    let words = row_words(plan);
    let variables = read::variable_count(plan);
    let mut shorter = 0;
    for x in 0..variables {
        let row = sweep_row(plan, cells, from, x);
        shorter += usize::from(row != row_at(from, words, x));
        put_row(to, words, x, row);
    }
    shorter
}

// Sweep k, counted from 0: after an odd number of sweeps the second buffer is read, else the first.
fn sweep_at(plan: &[u8], cells: &[u16], k: usize, first: &mut [u16], second: &mut [u16]) -> usize
    requires { Ready plan.now cells.now × (list_need ≤ length first.old) × (list_need ≤ length second.old) }
    ensures { SweepsAt (row_words plan.now) (network_at plan.now) k (two_lists first.old second.old) (two_lists first.new second.new) result }
{
    if k % 2 == 1 {
        sweep(plan, cells, second, first)
    } else {
        sweep(plan, cells, first, second)
    }
}

// Puts the loaded lists, all values of each variable, into the cells.
fn put_loaded(plan: &[u8], cells: &[u16], lists: &mut [u16])
    requires { Ready plan.now cells.now × (list_need ≤ length lists.old) }
    ensures { lists.new ≡ overwrite (domain_cells (row_words plan.now) (network_at plan.now) (loaded (network_at plan.now))) lists.old }
{
    let words = row_words(plan);
    let variables = read::variable_count(plan);
    for x in 0..variables {
        put_row(
            lists,
            words,
            x,
            base::power(parts::size(plan, cells, x)) - 1,
        );
    }
}

// Sweeps of the loaded lists until one deletes nothing; how many there were. Each other one deletes a label, so there are at most
// as many of those as labels.
fn sweep_all(plan: &[u8], cells: &[u16], first: &mut [u16], second: &mut [u16]) -> usize
    requires { Ready plan.now cells.now × (list_need ≤ length first.old) × (list_need ≤ length second.old) }
    ensures { (l : TwoLists) → two_lists first.old second.old ≡ after_sweeps (row_words plan.now) (network_at plan.now) 0 l → (result ≡ sweep_count (network_at plan.now)) × (two_lists first.new second.new ≡ after_sweeps (row_words plan.now) (network_at plan.now) result l) }
{
    for k in 0..=MAX_LABELS {
        let shorter = sweep_at(plan, cells, k, first, second);
        if shorter == 0 {
            return k + 1;
        }
    }
    MAX_LABELS + 1
}

// The sweeps of an accepted plan. No work cells are lent to them, so the plan's index is written into a local array of as many
// cells as a run needs.
pub fn sweep_plan(plan: &[u8], first: &mut [u16], second: &mut [u16]) -> usize
    requires { (plan_fault plan.now ≡ none) × (list_need ≤ length first.old) × (list_need ≤ length second.old) }
    ensures { Gives (sweep_outcome (row_words plan.now) (network_at plan.now) (two_lists first.old second.old)) (Ok result) (two_lists first.new second.new) }
{
    let mut cells = [0u16; WORK_NEED];
    indexing::index_plan(plan, &mut cells);
    put_loaded(plan, &cells, first);
    sweep_all(plan, &cells, first, second)
}
