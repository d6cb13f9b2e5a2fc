// Calls that are lent buffers of 16-bit cells: definitions, theorems, and the test of one buffer.
#![tactic(auto)]

ghost use Rattle.std.specs.Prelude.{[], ◌∷◌, ◌≡◌, leb, length};
ghost use Rattle.faults.specs.CheckList.{◌or_else◌, first_fault, verdict_of};

use faults::Fault;

// Whether a lent buffer has the cells that are needed, and the fault if it has fewer.
pub fn check_length(cells: &[u16], need: usize, fault: Fault) -> Result<(), Fault>
    ensures { result ≡ verdict_of (first_fault ((leb need (length cells.now) or_else fault) ∷ [])) }
{
    if cells.len() < need {
        return Err(fault);
    }
    Ok(())
}
