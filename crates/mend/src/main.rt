// Mends a recording: reads damaged bytes from standard input and writes the good stream of the whole words that are not refused. On
// standard error it lists the words that it dropped, a line each, and tells what was kept, dropped, cut and cleared; of a recording with nothing
// to mend it says nothing.
#![tactic(auto)]

mod say;

ghost use Rattle.std.specs.Prelude.{◌≤◌, length};
ghost use Rattle.mend.specs.Mend.{Enough, Repairs};

use console::args::count;
use console::say::{fail, say_line, tell};
use console::{recording, room, take};
use mending::{Mended, dextolumen_mend};
use say::{say_list, say_summary};
use std::io;
use stream::read::held;

// Mends over memories without places: what is kept and dropped is the same over any two memories of one length, so nothing need be drawn.
// There is room enough, so that nothing is refused. (The list of dropped words is two memories, as C lends them.)
fn repair(bytes: &[u8], out: &mut [u8], indices: &mut [u64], numbers: &mut [u8]) -> Mended
    requires { Enough bytes.now out.old indices.old numbers.old }
    ensures { Repairs bytes out indices numbers result }
{
    let mut im = [0u16; 0];
    let mut zm = [0u16; 0];
    dextolumen_mend(bytes, out, indices, numbers, &mut im, &mut zm)
}

// Writes the new stream and says what was mended, if anything was. A recording of 1,048,576 bytes has 419,430 words.
fn write_mended(rt: &(impl Print + Eprint), bytes: &[u8]) -> io::Result<()>
    requires { length bytes.now ≤ 1048576 }
{
    let mut out = recording();
    let mut indices = room::<u64, 419430>(0);
    let mut numbers = room::<u8, 419430>(0);
    let told = repair(bytes, &mut out, &mut indices, &mut numbers);
    let stream = &out[..told.size];
    rt.write_all(stream)?;
    let whole = (told.dropped == 0) & (told.cut == 0) & (told.cleared == 0);
    if !whole {
        say_list(
            rt,
            bytes,
            &indices[..told.dropped],
            &numbers[..told.dropped],
        );
        say_summary(rt, held(stream), told);
    }
    Ok(())
}

// Mends the bytes that were read.
fn mend(rt: &(impl Print + Eprint), bytes: &[u8]) {
    if 1048576 < bytes.len() {
        say_line(rt, "mend: the recording is longer than 1048576 bytes");
        return;
    }
    tell(rt, "mend: standard output", write_mended(rt, bytes));
}

fn main(rt: HostRuntime) {
    if 1 < count(&rt) {
        say_line(&rt, "usage: mend < DAMAGED > RECORDING");
        return;
    }
    let mut bytes = recording();
    match take(&rt, &mut bytes) {
        Ok(n) => mend(&rt, &bytes[..n]),
        Err(error) => fail(&rt, "mend: standard input", error),
    }
}
