// The controller's tally lent and updated in place: the read by value does the work.
#![tactic(auto)]

ghost use Rattle.std.specs.Option.{is_some, unwrap_or};
ghost use Rattle.controller.specs.Controller.{MayRead, HasRead};

use disac4::Tally;

// Read: the lent tally takes the next message of row `i`, of `p` workers. It says whether something changed.
pub fn read_message(cells: &mut [u16], t: &mut Tally, p: usize, i: usize) -> bool
    requires { MayRead cells.old t.old p i }
    ensures { HasRead cells.old t.old p i cells.new t.new result }
{
    let Some(after) = controller::read_message(cells, *t, p, i) else {
        return false;
    };
    *t = after;
    true
}

// The same for a caller that has the tally by value: it is lent from a local.
pub fn read_by_value(cells: &mut [u16], t: Tally, p: usize, i: usize) -> Option<Tally>
    requires { MayRead cells.old t p i }
    ensures { HasRead cells.old t p i cells.new (unwrap_or result t) (is_some result) }
{
    let mut after = t;
    let changed = read_message(cells, &mut after, p, i);
    changed.then_some(after)
}
