// What a finished run gives: the list cells of its variables, and its report.
// Plan and cells are two parameters: `index::parts` says why.
#![tactic(auto)]

ghost use Rattle.std.specs.Prelude.{cond, ◌≡◌, ◌<◌, ◌≤◌, IfSome, is_none, unwrap_or, length};
ghost use Rattle.base.specs.Row.{row_of};
ghost use Rattle.lending.specs.Call.{overwrite};
ghost use Rattle.disac4.specs.Need.{list_need};
ghost use Rattle.disac4.specs.Report.{lowest_empty, list_cells};
ghost use Rattle.disac4.specs.System.{system_at};
ghost use Rattle.disac4.specs.declared.Tally.{Tally};
ghost use Rattle.index.specs.Index.{Ready};
ghost use Rattle.cells.specs.Memory.{mem_of};
ghost use Rattle.refinement.specs.Run.{report_m};
ghost use Rattle.cells.specs.View.{in_domain, view};
ghost use Rattle.plan.specs.Decode.{plan_of};
ghost use Rattle.format.specs.Format.{variable_count};
ghost use Rattle.format.specs.Version.{row_words};
ghost use Rattle.plan.specs.Plan.{size_of};

use cells::layout;
use disac4::{Progress, Report, Status};
use format::read;
use format::version::row_words;
use index::parts;
use listing::put_row;

// The row of the values in a variable's domain.
fn domain_row(plan: &[u8], cells: &[u16], x: usize) -> usize
    requires { Ready plan.now cells.now × (x < variable_count plan.now) }
    ensures { result ≡ row_of (size_of (plan_of plan.now) x) (in_domain (mem_of cells.now) x) }
{
    let values = parts::size(plan, cells, x);
    layout::row_holding(cells, layout::DOMAIN, x, values, layout::LISTED)
}

// Puts each variable's row into its list cells; the cells behind keep what they had.
pub fn write_lists(plan: &[u8], cells: &[u16], lists: &mut [u16])
    requires { Ready plan.now cells.now × (list_need ≤ length lists.old) }
    ensures { (t : Tally) → lists.new ≡ overwrite (list_cells (row_words plan.now) (system_at plan.now) (view (system_at plan.now) (mem_of cells.now) t)) lists.old }
{
    let words = row_words(plan);
    let variables = read::variable_count(plan);
    for x in 0..variables {
        put_row(lists, words, x, domain_row(plan, cells, x));
    }
}

// The number of the lowest variable whose domain is empty, from 1.
fn lowest_empty(plan: &[u8], cells: &[u16]) -> Option<usize>
    requires { Ready plan.now cells.now }
    ensures lowest { (t : Tally) → unwrap_or result 0 ≡ lowest_empty (system_at plan.now) (view (system_at plan.now) (mem_of cells.now) t) }
    ensures from_one { IfSome result (λ x. 0 < x) }
{
    let variables = read::variable_count(plan);
    for x in 0..variables {
        if domain_row(plan, cells, x) == 0 {
            return Some(x + 1);
        }
    }
    None
}

// Where a run ends, by whether its plan is closed and by the lowest empty domain.
fn status_of(closed: bool, empty: Option<usize>) -> Status
    ensures { result ≡ cond closed (cond (is_none empty) Status.Closed Status.Bare) Status.Open }
{
    match (closed, empty) {
        (false, _) => Status::Open,
        (true, None) => Status::Closed,
        (true, Some(_)) => Status::Bare,
    }
}

// The report of a run that has come so far.
pub fn report(plan: &[u8], cells: &[u16], g: Progress) -> Report
    requires { Ready plan.now cells.now }
    ensures { result ≡ report_m (system_at plan.now) (mem_of cells.now) g }
{
    let tally = g.tally;
    let empty = lowest_empty(plan, cells);
    Report {
        status: status_of(tally.closed, empty),
        changes: g.changes,
        sends: g.sends,
        polls: g.polls,
        empty: empty.unwrap_or(0),
    }
}
