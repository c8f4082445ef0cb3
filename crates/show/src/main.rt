// Shows the picture of a recording: reads a packed stream from standard input, draws it, and writes one of the two memories as an image.
// What the arguments ask for is `asked_of` (specs/Arguments.antt), and the image is `image` (report's specs/Image.antt) or, in levels, `level_image`
// (specs/Levels.antt there). What keeps it from being written, and what it misses, the program says on standard error.
#![tactic(auto)]

mod arguments;
mod page;
mod reach;
mod write;

ghost use Rattle.std.specs.Prelude.{◌≤◌, ◌≡◌, unwrap_or};

use arguments::asked;
use console::args::{argument, count};
use console::say::{fail, say_line, tell};
use console::{blank, recording, take};
use registers::Registers;
use std::fmt;
use write::write_drawn;

// The two memories.
#[derive(Clone, Copy, PartialEq, Eq)]
enum Memory {
    Intensity,
    Depth,
}

// What is to be shown: which memory, whether in levels (a setting, as the argument gives it), and how many places the memories have, if that is given.
#[derive(Clone, Copy)]
struct Wanted {
    memory: Memory,
    levels: bool,
    places: Option<usize>,
}

impl Wanted {
    // As many places as are given, and else as many as there may be.
    fn room(self) -> usize
        ensures { result ≡ unwrap_or self.places 1048576 }
    {
        self.places.unwrap_or(1048576)
    }
}

// Why it is not told what to show.
#[derive(Clone, Copy)]
enum Usage {
    TooMany,
    Unclear,
}

impl fmt::Display for Usage {
    fn fmt<W: fmt::Write>(&self, f: &mut fmt::Formatter<W>) -> fmt::Result {
        f.write_str(match self {
            Usage::TooMany => "show: the memories have at most 1048576 places",
            Usage::Unclear => {
                "usage: show [i|z] [levels] [PLACES, 1 to 1048576] < RECORDING > IMAGE.pgm   (i: intensity, z: depth, levels: 8 bits to look at)"
            }
        })
    }
}

// The highest figure that has a vertex above the rows in use: the rows up to that vertex, and those that were in use.
#[derive(Clone, Copy)]
struct Above {
    height: usize,
    rows: usize,
}

// How far the words have come: the registers, and the highest such figure so far, if there is one.
#[derive(Clone, Copy)]
struct Came {
    registers: Registers,
    above: Option<Above>,
}

// Draws the bytes on fresh memories and writes the image.
fn show(rt: &(impl Print + Eprint), wanted: Wanted, bytes: &[u8])
    requires { unwrap_or wanted.places 1048576 ≤ 1048576 }
{
    if 1048576 < bytes.len() {
        say_line(rt, "show: the recording is longer than 1048576 bytes");
        return;
    }
    let mut im = blank(0);
    let mut zm = blank(65535);
    let room = wanted.room();
    let written = write_drawn(rt, wanted, bytes, &mut im[..room], &mut zm[..room]);
    tell(rt, "show: standard output", written);
}

// One byte more than a recording may have is enough to tell that it is too long.
fn read(rt: &(impl Input + Print + Eprint), wanted: Wanted)
    requires { unwrap_or wanted.places 1048576 ≤ 1048576 }
{
    let mut bytes = recording();
    match take(rt, &mut bytes) {
        Ok(n) => show(rt, wanted, &bytes[..n]),
        Err(error) => fail(rt, "show: standard input", error),
    }
}

fn main(rt: HostRuntime) {
    let mut first = [0u8; 64];
    let mut second = [0u8; 64];
    let mut third = [0u8; 64];
    let wanted = asked(
        count(&rt),
        argument(&rt, 1, &mut first),
        argument(&rt, 2, &mut second),
        argument(&rt, 3, &mut third),
    );
    match wanted {
        Ok(wanted) => read(&rt, wanted),
        Err(usage) => say_line(&rt, usage),
    }
}
