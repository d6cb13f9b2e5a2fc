// The protocol: definitions, theorems, and the types of a run's report, its tally and its progress.
#![tactic(auto)]

// Where a run ends: closed is bare if some variable's domain (list) is empty.
#[derive(Clone, Copy, Debug, PartialEq, Eq)]
pub enum Status {
    Open,
    Closed,
    Bare,
}

// The run's report, in document 01's order.
#[derive(Clone, Copy, Debug, PartialEq, Eq)]
pub struct Report {
    pub status: Status,
    // Turns that changed something.
    pub changes: usize,
    // List messages sent, each send once.
    pub sends: usize,
    // Polls sent, each poll turn once.
    pub polls: usize,
    // The lowest slot with an empty list, 0 if none: a number, as document 01 has it.
    pub empty: usize,
}

// The numbers of the actions that are no reads. An action below them reads from the actor of that number.
// No enum: a turn's byte, the table of idle turns and the definitions go by the number, and beside a variant for reads with their
// sender a number, as 9, would stand for two actions.
pub const TREAT_ACTION: usize = 9;

pub const SEND_ACTION: usize = 10;

pub const ANSWER_ACTION: usize = 11;

pub const POLL_ACTION: usize = 12;

// The bytes that a turn list may have.
pub const MAX_TURN_BYTES: usize = 65536;

// As many cells as a run needs, of work and of lists.
pub const WORK_NEED: usize = 30720;

pub const LIST_NEED: usize = 64;

// A poll's number.
#[derive(Clone, Copy, Debug, PartialEq, Eq)]
pub struct Timestamp(pub u16);

// A count of lists.
#[derive(Clone, Copy, Debug, PartialEq, Eq)]
pub struct ListCounter(pub u16);

// A poll carries its own number and the wanted count of lists: of two types, so that neither passes for the other.
#[derive(Clone, Copy, Debug, PartialEq, Eq)]
pub struct Poll {
    pub number: Timestamp,
    pub wanted: ListCounter,
}

// The controller's tally (the desk's): its count of lists, the poll number, the marks as a row of bits, lowest bit for worker 1,
// whether the poll is open (polling), and whether the plan is closed. Eight bytes without a gap, so that it is copied at once.
// `polling` is a flag and no Option: the poll number stays where no poll is open.
#[derive(Clone, Copy, Debug, PartialEq, Eq)]
pub struct Tally {
    pub lists: ListCounter,
    pub timestamp: Timestamp,
    pub marks: u16,
    pub polling: bool,
    pub closed: bool,
}

// How far a run has come: the tally, and the counts of its report.
#[derive(Clone, Copy, Debug, PartialEq, Eq)]
pub struct Progress {
    pub tally: Tally,
    pub changes: usize,
    pub sends: usize,
    pub polls: usize,
}
