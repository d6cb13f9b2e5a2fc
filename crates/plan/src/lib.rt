// Plans: definitions, theorems, and the counts that the plan check gives.
#![tactic(auto)]

// What the plan check returns on success: p, n, the number of rules and L.
#[derive(Clone, Copy, Debug, PartialEq, Eq)]
pub struct Counts {
    pub workers: usize,
    pub variables: usize,
    pub constraints: usize,
    pub labels: usize,
}
