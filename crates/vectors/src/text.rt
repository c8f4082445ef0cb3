// A stream's line: the first line of what the drawing program prints for it, a checksum of all of that, and one of what it would print over
// tiles.
ghost use Rattle.std.specs.Prelude.{◌≡◌, ◌≤◌, length};

use chip::run::{run, run_tiled};
use printing::put_text;
use std::io;

// The text before the first line's end.
fn first_line(text: &[u8]) -> &[u8]
    ensures { length result.now ≤ length text.now }
{
    match text.iter().position(|byte| *byte == b'\n') {
        Some(n) => &text[..n],
        None => text,
    }
}

// The checksum of a text: FNV-1a of 64 bits.
fn checksum(text: &[u8]) -> u64 {
    text.iter().fold(0xcbf2_9ce4_8422_2325, |sum, byte| {
        (sum ^ *byte as u64).wrapping_mul(0x0100_0000_01b3)
    })
}

// Prints the first line and the checksum of what a stream comes to on a fresh picture of 8,192 places.
fn print_drawn(rt: &impl Print, bytes: &[u8]) -> io::Result<()> {
    let mut im = [0u16; 8192];
    let mut zm = [65535u16; 8192];
    let ran = run(bytes, &mut im, &mut zm);
    let mut out = [0u8; 180308];
    let n = put_text(ran, &im, &zm, &mut out);
    let text = &out[..n];
    rt.write_all(first_line(text))?;
    let sum = checksum(text);
    print!(rt; ", text {sum:016x}")
}

// Prints the checksum of what it comes to over tiles: places are told as in rows, whatever pixel lies at them. (Beside `print_drawn`, which prints a line of the text
// too: a run that is passed in to one of both would want what it asks and tells said at each call.)
fn print_tiled(rt: &impl Print, bytes: &[u8]) -> io::Result<()> {
    let mut im = [0u16; 8192];
    let mut zm = [65535u16; 8192];
    let ran = run_tiled(bytes, &mut im, &mut zm);
    let mut out = [0u8; 180308];
    let n = put_text(ran, &im, &zm, &mut out);
    let sum = checksum(&out[..n]);
    println!(rt; ", tiled {sum:016x}")
}

// Prints a stream's line.
pub(crate) fn print_stream(rt: &impl Print, name: &[u8], bytes: &[u8]) -> io::Result<()> {
    rt.write_all(name)?;
    rt.write_all(b": ")?;
    if 8192 < bytes.len() {
        return rt.write_all(b"too long\n");
    }
    print_drawn(rt, bytes)?;
    print_tiled(rt, bytes)
}
