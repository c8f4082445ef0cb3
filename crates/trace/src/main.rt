// Traces a recording: reads a packed stream from standard input and prints a line a word with what the machine made of it, to the first that is
// refused (`trace_of`, of tracing's specs/Trace.antt). With two arguments, the words alone that have a pixel at (X, Y) (`watch_of`, specs/Watch.antt).
// What the arguments ask for is `asked_of` (specs/Arguments.antt).
#![tactic(auto)]

mod arguments;
mod print;

use arguments::asked;
use console::args::{argument, count};
use console::say::{fail, say_line};
use console::{recording, take};
use print::print_trace;
use std::fmt;
use tracing::Pixel;

// Why it is not told what to trace.
#[derive(Clone, Copy)]
enum Usage {
    Unclear,
}

impl fmt::Display for Usage {
    fn fmt<W: fmt::Write>(&self, f: &mut fmt::Formatter<W>) -> fmt::Result {
        f.write_str("usage: trace [X Y, each 0 to 16383] < RECORDING > TEXT")
    }
}

// Traces all words, or those that have a pixel. One byte more than a recording may have is enough to tell that it is too long. (Not compiled into `main`, which would take
// the stack of all that is traced before it has looked at the arguments.)
#[inline(never)]
fn trace(rt: &(impl Input + Print + Eprint), pixel: Option<Pixel>) {
    let mut bytes = recording();
    match take(rt, &mut bytes) {
        Ok(n) => print_trace(rt, pixel, &bytes[..n]),
        Err(error) => fail(rt, "trace: standard input", error),
    }
}

fn main(rt: HostRuntime) {
    let mut first = [0u8; 64];
    let mut second = [0u8; 64];
    let wanted = asked(
        count(&rt),
        argument(&rt, 1, &mut first),
        argument(&rt, 2, &mut second),
    );
    match wanted {
        Ok(pixel) => trace(&rt, pixel),
        Err(usage) => say_line(&rt, usage),
    }
}
