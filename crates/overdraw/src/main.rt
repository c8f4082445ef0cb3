// The overdraw report: reads the files 000, 001 and on to 999 where it stands, until one is missing, and prints what each draws for nothing, and
// all of them. What it prints is `Printed` (specs/Report.antt). A file that cannot be read is told on standard error, and ends the report:
// what came before it is printed, and no total.
#![tactic(auto)]

mod file;
mod page;
mod text;

ghost use Rattle.std.specs.Prelude.{◌≡◌, ◌≤◌, length};
ghost use Rattle.overdraw.specs.Report.{Gathered, Printed};

use console::args::count;
use console::say::{say_line, tell};
use file::{Lost, find, say_unread};
use page::Reached;
use report::Page;
use std::io::Eprint;
use std::rt::Files;

// Why a report has no total: a file cannot be read. Its lines end where its page had come to.
#[derive(Clone, Copy, Debug, PartialEq, Eq)]
struct Cut;

// Reads and reports file after file, until one is missing or cannot be read. One byte more than a recording may have is enough to tell that it is
// too long. (No range counts the files: the report counts them, and that it has fewer than a thousand is what `add` asks for. A range's number would have to be shown to
// be the report's at each file.)
fn gather(rt: &(impl Files + Eprint), page: &mut Page<'_>) -> Result<Reached, Cut>
    requires at_front { page.old.at ≡ 0 }
    requires long { 418474 ≤ length page.old.out.now }
    ensures { Gathered page.old page.new result }
{
    let mut reached = Reached::begin(page);
    let mut bytes = [0u8; 8193];
    while reached.files < 1000 {
        match find(rt, reached.files, &mut bytes) {
            Ok(n) => reached = reached.add(&bytes[..n], page),
            Err(Lost::Missing) => return Ok(reached),
            Err(Lost::Unreadable(error)) => {
                say_unread(rt, reached.files, error);
                return Err(Cut);
            }
        }
    }
    Ok(reached)
}

// The report, at the front of a buffer, and its length.
fn reported(rt: &(impl Files + Eprint), out: &mut [u8; 418474]) -> usize
    ensures { Printed out.old out.new result }
{
    let mut page = Page { out, at: 0 };
    match gather(rt, &mut page) {
        Ok(reached) => {
            reached.finish(&mut page);
            page.at
        }
        Err(Cut) => page.at,
    }
}

fn main(rt: HostRuntime) {
    if 1 < count(&rt) {
        say_line(
            &rt,
            "usage: overdraw, where the recordings 000, 001 and so on stand",
        );
        return;
    }
    let mut out = [0u8; 418474];
    let n = reported(&rt, &mut out);
    tell(&rt, "overdraw: standard output", rt.write_all(&out[..n]));
}
