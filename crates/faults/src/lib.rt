// Faults: why a call declines, and what a list of checks finds. They are no part of a plan: buffers and turn lists have theirs.
#![tactic(auto)]

ghost use Rattle.std.specs.Prelude.{◌≡◌};
ghost use Rattle.faults.specs.Fault.{number_of, decline};

// Why a call declines: a case for each number of document 01.
#[derive(Clone, Copy, Debug, PartialEq, Eq)]
pub enum Fault {
    // 1: plan empty, or a section or its length is cut off.
    Truncated,
    // 2: version byte is neither 1 nor 2.
    BadVersion,
    // 3: a section's length is not the one its content calls for.
    BadLength,
    // 4: p, n, number of rules, a dish count or a set rule's count out of range, more than 512 dishes with this slot's, or more than
    // 128 pairs of slots with this rule's.
    BadCount,
    // 5: kitchen or slot number out of range, or a rule's slots not ascending.
    BadNumber,
    // 6: a code stands twice in a slot.
    RepeatedCode,
    // 7: kind above the version's, or a table bit past the second slot's count.
    BadConstraint,
    // 8: bytes after the last rule.
    TrailingBytes,
    // 9: fewer than 30,720 work cells.
    ShortWork,
    // 10: fewer than 64 list cells.
    ShortLists,
    // 11: turn list of odd length or over 65,536 bytes.
    BadTurnList,
    // 12: a turn that is not allowed.
    BadTurn,
}

// A fault and its place.
#[derive(Clone, Copy, Debug, PartialEq, Eq)]
pub struct Decline {
    pub fault: Fault,
    pub place: usize,
}

// This fault at this place.
pub fn decline_at(fault: Fault, place: usize) -> Decline
    ensures { result ≡ decline fault place }
{
    Decline { fault, place }
}

// The number that document 01 gives to a fault.
impl From<Fault> for usize {
    ghost from_gives = { λ fault n. n ≡ number_of fault };

    fn from(fault: Fault) -> usize {
        match fault {
            Fault::Truncated => 1,
            Fault::BadVersion => 2,
            Fault::BadLength => 3,
            Fault::BadCount => 4,
            Fault::BadNumber => 5,
            Fault::RepeatedCode => 6,
            Fault::BadConstraint => 7,
            Fault::TrailingBytes => 8,
            Fault::ShortWork => 9,
            Fault::ShortLists => 10,
            Fault::BadTurnList => 11,
            Fault::BadTurn => 12,
        }
    }
}
