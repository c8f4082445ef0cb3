// What recordings draw for nothing (document 02, [11]): their figures and pixels, counted by kind. specs/Hidden.antt says which pixels are hidden,
// specs/Tally.antt what is counted, and specs/Overdraw.antt as what a word and a recording are counted.
#![tactic(auto)]

mod figure;
mod recording;
mod sums;

use ground::Refusal;
pub use recording::enter;

// Figures of one kind that were completed, and of their pixels how many were offered, passed and hidden.
#[derive(Clone, Copy, Debug, PartialEq, Eq)]
pub struct Count {
    pub figures: u64,
    pub offered: u64,
    pub passed: u64,
    pub hidden: u64,
}

// A count for each kind. No array by kind: the report's lines and specs/Tally.antt name each.
#[derive(Clone, Copy, Debug, PartialEq, Eq)]
pub struct Tally {
    pub gouraud: Count,
    pub constant: Count,
    pub line0: Count,
    pub line1: Count,
    pub line2: Count,
}

// Why a recording was not run to its end: it is too long for the report, or it or one of its words was refused.
#[derive(Clone, Copy, Debug, PartialEq, Eq)]
pub enum Stop {
    TooLong,
    Refused(Refusal),
}

// A recording in the report: how it ended, and its tally.
#[derive(Clone, Copy, Debug, PartialEq, Eq)]
pub struct Entry {
    pub outcome: Result<(), Stop>,
    pub tally: Tally,
}
