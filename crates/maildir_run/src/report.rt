// The report of a run.

/// What a run that ended with Ok did.
#[derive(Clone, Copy, Debug, PartialEq, Eq)]
pub struct Report {
    /// How many messages the text has.
    pub messages: u64,
    /// How many of them had a home before the run.
    pub there: u64,
    /// How many of them the run placed.
    pub placed: u64,
    /// How many files the run removed from `tmp`.
    pub swept: u64,
}
