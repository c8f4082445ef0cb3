// What the machine makes of a recording's words, a line each (specs/Trace.antt), and which of them have a pixel at a place that is asked for
// (specs/Watch.antt).
#![tactic(auto)]

mod meaning;
mod next;
mod pixel;

pub use next::trace;
pub use pixel::{Pixel, watch};
