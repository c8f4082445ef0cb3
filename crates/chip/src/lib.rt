// The chip: one word (`step`), a packed stream from reset (`run`), and the host's read strobe (`read`). specs/Chip.antt, specs/Stream.antt
// and specs/Read.antt say what they do.
#![tactic(auto)]

pub mod draw;
pub mod figure;
pub mod run;
pub mod step;
pub mod transfer;
