// Assembles a recording: reads a text of words from standard input, as `list` prints it or with bare words, and writes the packed stream.
// What is a word and what a remark is said in listing's specs/Reading.antt. Nothing is written of a text that has something else in it.
#![tactic(auto)]

ghost use Rattle.std.specs.Prelude.{◌≤◌, length};

use console::args::count;
use console::say::{fail, say_line, tell};
use console::{piece, recording, take, words};
use listing::read::{Mood, Reader, read, start};
use stream::write::pack;

// Writes the recording of some words, or says that it cannot. They were read from five digits each, and there is room for all of them, so that no
// refusal comes (by reasoning, not by proof). (Not compiled into `main`, which would take the stack of a recording before it has read the text.)
#[inline(never)]
fn write_packed(rt: &(impl Print + Eprint), words: &[u32]) {
    let mut out = recording();
    match pack(words, &mut out) {
        Ok(n) => tell(rt, "assemble: standard output", rt.write_all(&out[..n])),
        Err(refusal) => {
            let number = u64::from(refusal);
            say_line(rt, format_args!("assemble: refusal {number}"));
        }
    }
}

// Writes what was read, if it was words. A last line may have no end, so that one is read here.
fn finish(rt: &(impl Print + Eprint), r: Reader, words: &mut [u32])
    requires { r.held ≤ length words.old }
{
    let end = read(r, b"\n", words);
    match end.mood {
        Mood::Words | Mood::Remark => write_packed(rt, &words[..end.held]),
        Mood::NotWord => {
            let line = end.line;
            say_line(
                rt,
                format_args!("assemble: line {line}: not a word of five hexadecimal digits"),
            );
        }
        Mood::NoRoom => say_line(rt, "assemble: the text has more than 419430 words"),
    }
}

// Reads the text piece by piece; one that is not full is the last. A text of less than 16 MiB is read to its end, so that the listing of
// the longest recording is.
fn assemble(rt: &(impl Input + Print + Eprint), words: &mut [u32]) {
    let mut part = piece();
    let mut r = start();
    for _ in 0..256 {
        let n = match take(rt, &mut part) {
            Ok(n) => n,
            Err(error) => {
                fail(rt, "assemble: standard input", error);
                return;
            }
        };
        r = read(r, &part[..n], words);
        if n < 65536 {
            finish(rt, r, words);
            return;
        }
    }
    say_line(rt, "assemble: the text has 16777216 bytes or more");
}

fn main(rt: HostRuntime) {
    if 1 < count(&rt) {
        say_line(&rt, "usage: assemble < TEXT > RECORDING");
        return;
    }
    let mut words = words();
    assemble(&rt, &mut words);
}
