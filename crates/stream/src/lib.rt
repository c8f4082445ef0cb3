// Packed streams: recorded words read, written and checked. specs/Format.antt is the format, specs/Calls.antt what each call
// tells and leaves.
#![tactic(auto)]

pub mod entries;
pub mod read;
mod word;
pub mod write;
