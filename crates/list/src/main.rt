// Lists a recording: reads a packed stream from standard input and prints its words, a line each (`listing`, of listing's specs/Text.antt),
// or the number that refuses the stream, which it says on standard error as well. `assemble` turns the lines back into the recording.
#![tactic(auto)]

mod page;

ghost use Rattle.std.specs.Prelude.{◌≤◌, length};

use console::args::count;
use console::say::{fail, refuse, say_line, tell};
use console::{piece, recording, take, words};
use page::put_page;
use std::io;
use stream::read::unpack;

// Prints the lines of all words, page after page.
fn print_words(rt: &impl Print, words: &[u32]) -> io::Result<()>
    requires { length words.now ≤ 419430 }
{
    let mut page = piece();
    for from in (0..words.len()).step_by(2520) {
        let n = put_page(words, from, &mut page);
        rt.write_all(&page[..n])?;
    }
    Ok(())
}

// Prints the words of a stream, or the number that refuses it, which is no text of words, so that nothing takes it for the listing of an empty recording. There is
// room for the words of 1,048,576 bytes, and words that are unpacked have 20 bits, so that 13 and 1 never come (by reasoning, not by proof). `too long` is no text
// of words either.
fn print_listing(rt: &(impl Print + Eprint), bytes: &[u8]) -> io::Result<()> {
    if 1048576 < bytes.len() {
        say_line(rt, "list: the recording is longer than 1048576 bytes");
        return rt.write_all(b"too long\n");
    }
    let mut words = words();
    match unpack(bytes, &mut words) {
        Ok(n) => print_words(rt, &words[..n]),
        Err(refusal) => refuse(rt, "list", u64::from(refusal)),
    }
}

// Lists the bytes that were read, or says that it cannot.
fn list(rt: &(impl Print + Eprint), bytes: &[u8]) {
    tell(rt, "list: standard output", print_listing(rt, bytes));
}

fn main(rt: HostRuntime) {
    if 1 < count(&rt) {
        say_line(&rt, "usage: list < RECORDING > TEXT");
        return;
    }
    let mut bytes = recording();
    match take(&rt, &mut bytes) {
        Ok(n) => list(&rt, &bytes[..n]),
        Err(error) => fail(&rt, "list: standard input", error),
    }
}
