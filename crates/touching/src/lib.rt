// The different pairs of variables that the constraints of a plan touch: a constraint touches each pair of its scope.
#![tactic(auto)]

ghost use Rattle.std.specs.Prelude.{true, List, ◌≡◌, ℕ, suc, ◌+◌, ◌*◌, ◌<◌, ◌≤◌, leb, length};
ghost use Rattle.format.specs.Format.{constraint_start, variable_count, scope_size, scope_of};
ghost use Rattle.format.specs.Limits.{max_variables, max_pairs, max_further};
ghost use Rattle.plan.specs.Check.{pairs_to};
ghost use Rattle.plan.specs.Network.{joins};
ghost use Rattle.touching.specs.Known.{ScopeKnown};
ghost use Rattle.touching.specs.Touching.{joins_at, Joined, Touching};

use base::{power, row_holds};
use format::constraint;
use format::limits::{MAX_PAIRS, MAX_VARIABLES};

// A row of bits for each variable y: bit x, where x is below y, says that the pair is touched.
type Rows = [usize; MAX_VARIABLES];

// The pairs that are touched, and how many they are.
#[derive(Clone, Copy, Debug, PartialEq, Eq, PartialOrd, Ord, Hash, Default)]
pub struct Touched {
    pub rows: Rows,
    pub pairs: usize,
}

// Touches the pairs of variable j of a constraint's scope, from 0, with those before it in the scope: how many are new.
fn touch_before(plan: &[u8], at: usize, j: usize, rows: &mut Rows) -> usize
    requires { ScopeKnown plan.now at × (j < scope_size plan.now at) }
    ensures { Joined (variable_count plan.now) (joins_at plan.now at j) rows.old rows.new result × (result ≤ j) }
{
    let y = constraint::scope_at(plan, at, j) - 1;
    let mut row = rows[y];
    let mut fresh = 0;
    for i in 0..j {
        let x = constraint::scope_at(plan, at, i) - 1;
        fresh += usize::from(!row_holds(row, x));
        row |= power(x);
    }
    rows[y] = row;
    fresh
}

// Touches the pairs of a constraint's scope: how many are new.
fn touch_pairs(plan: &[u8], at: usize, rows: &mut Rows) -> usize
    requires { ScopeKnown plan.now at }
    ensures { Joined (variable_count plan.now) (joins (scope_of plan.now at)) rows.old rows.new result × (result ≤ (2 + max_further) * (2 + max_further)) }
{
    let size = 2 + constraint::further_count(plan, at);
    let mut fresh = 0;
    for j in 1..size {
        fresh += touch_before(plan, at, j, rows);
    }
    fresh
}

impl Touched {
    // No pair is touched.
    pub fn none() -> Touched
        ensures { (b : List ℕ) → Touching b 0 result.rows result.pairs }
    {
        Touched {
            rows: [0; MAX_VARIABLES],
            pairs: 0,
        }
    }

    // Touches the pairs of a constraint's scope: there are not too many with them. The pairs of the constraints before it are touched.
    pub fn few_pairs(&mut self, plan: &[u8], at: usize) -> bool
        requires { ScopeKnown plan.now at × (self.old.pairs ≤ max_pairs) }
        ensures { (r : ℕ) → at ≡ constraint_start plan.now r → Touching plan.now r self.old.rows self.old.pairs → (result ≡ leb (pairs_to plan.now (suc r)) max_pairs) × (result ≡ true → Touching plan.now (suc r) self.new.rows self.new.pairs) }
    {
        self.pairs += touch_pairs(plan, at, &mut self.rows);
        self.pairs <= MAX_PAIRS
    }
}
