// The trace goes to standard output, and what went wrong to standard error.
ghost use Rattle.report.specs.Calls.{OnPage};

use chip::run::Ran;
use console::say::{refuse, say_line, say_refused};
use console::{blank, piece};
use registers::Registers;
use report::Page;
use std::io;
use stream::read::{checked, held};
use tracing::{Pixel, trace, watch};

// Before the first word.
fn begun() -> Ran {
    Ran {
        outcome: Ok(()),
        index: 0,
        sum: 0,
        registers: Registers::reset(),
    }
}

// The next word, traced or watched, with its line on the page. The two calls take different things, so that a closure would be no plainer. (They take
// the memories one by one, as docs/CALLS.md has it.)
#[tactic(auto, using(report::proofs::Laying::lays_within))]
fn turn(
    pixel: Option<Pixel>,
    run: Ran,
    bytes: &[u8],
    im: &mut [u16],
    zm: &mut [u16],
    page: &mut Page<'_>,
) -> Ran
    requires { OnPage page.old }
    ensures { OnPage page.new }
{
    match pixel {
        Some(pixel) => watch(pixel, run, bytes, im, zm, page),
        None => trace(run, bytes, im, zm, page),
    }
}

// Prints the lines of all words, page after page: a page is printed while there is room for one line more. It tells how far the run came, and
// whether all was printed.
fn print_words(
    rt: &impl Print,
    pixel: Option<Pixel>,
    bytes: &[u8],
    im: &mut [u16],
    zm: &mut [u16],
) -> (Ran, io::Result<()>) {
    let mut buffer = piece();
    let mut page = Page {
        out: &mut buffer,
        at: 0,
    };
    let mut run = begun();
    for _ in 0..held(bytes) {
        run = turn(pixel, run, bytes, im, zm, &mut page);
        let at = page.at;
        if 65460 < at {
            let printed = rt.write_all(&page.out[..at]);
            if printed.is_err() {
                return (run, printed);
            }
            page.at = 0;
        }
    }
    let at = page.at;
    (run, rt.write_all(&page.out[..at]))
}

// Says that standard output did not take all, if it did not.
fn tell(rt: &impl Eprint, printed: io::Result<()>) {
    console::say::tell(rt, "trace: standard output", printed);
}

// Traces a stream on fresh memories, or prints the number that refuses it, which is no line of a word, so that nothing takes it for the trace of an empty recording.
fn print_stream(rt: &(impl Print + Eprint), pixel: Option<Pixel>, bytes: &[u8]) {
    if let Err(refusal) = checked(bytes) {
        tell(rt, refuse(rt, "trace", u64::from(refusal)));
        return;
    }
    let mut im = blank(0);
    let mut zm = blank(65535);
    let (run, printed) = print_words(rt, pixel, bytes, &mut im, &mut zm);
    tell(rt, printed);
    if let Err(refusal) = run.outcome {
        say_refused(rt, "trace", u64::from(refusal), run.index);
    }
}

// Traces the bytes that were read. `too long` is no line of a trace.
pub(crate) fn print_trace(rt: &(impl Print + Eprint), pixel: Option<Pixel>, bytes: &[u8]) {
    if 1048576 < bytes.len() {
        say_line(rt, "trace: the recording is longer than 1048576 bytes");
        tell(rt, rt.write_all(b"too long\n"));
        return;
    }
    print_stream(rt, pixel, bytes);
}
