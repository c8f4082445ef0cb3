// Streams by name, run as the drawing program runs them, and then calls that no stream makes. The streams are the file `streams` of data/.
// The second program wrote that file and the stored output: a line of this program differs where the two programs do.
#![tactic(auto)]

mod bounds;
mod coding;
mod print;
mod reads;
mod record;
mod streams;
mod text;
mod word;

use console::say::tell;
use std::io;
use std::rt::Files;

// All of these.
fn rows(rt: &(impl Files + Print + Eprint)) -> io::Result<()> {
    streams::run_all(rt)?;
    word::rows(rt)?;
    bounds::rows(rt)?;
    reads::rows(rt)?;
    coding::rows(rt)
}

fn main(rt: HostRuntime) {
    tell(&rt, "vectors: standard output", rows(&rt));
}
