// The drawing program: reads a packed stream from standard input, draws it, and prints the picture as text. What it prints for what it
// reads is `printed` (specs/Draw.antt). Where a read or a write fails, or where it is given arguments, it says so on standard error.
#![tactic(auto)]

mod text;

use console::args::count;
use console::say::{fail, say_line, tell};
use console::take;
use text::put_printed;

// Prints what the bytes come to.
fn print(rt: &(impl Print + Eprint), bytes: &[u8]) {
    let mut out = [0u8; 180308];
    let n = put_printed(bytes, &mut out);
    tell(rt, "draw: standard output", rt.write_all(&out[..n]));
}

// One byte more than a stream may have is enough to tell that it is too long. (Each program that reads once begins so, with its own texts, buffer and next call: in a
// function of `console` all four would be passed in, and what the next call asks for besides.)
fn main(rt: HostRuntime) {
    if 1 < count(&rt) {
        say_line(&rt, "usage: draw < RECORDING > TEXT");
        return;
    }
    let mut bytes = [0u8; 8193];
    match take(&rt, &mut bytes) {
        Ok(n) => print(&rt, &bytes[..n]),
        Err(error) => fail(&rt, "draw: standard input", error),
    }
}
