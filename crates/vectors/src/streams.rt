// The streams of the file: how many there are, in two bytes; then for each the length of its name, in one byte, the length of the stream, in
// two, the name and the stream. The more significant of two bytes comes first.
ghost use Rattle.std.specs.Prelude.{◌≡◌, ◌≤◌, length};

use crate::text::print_stream;
use console::say::fail;
use std::io::Read;
use std::rt::Files;
use std::{fs, io};

// Reads until a buffer is full, the input ends or a read fails, and tells how many bytes came: `console`'s reading tells a failure in place of what
// came before it. A read gives as many bytes as it likes, so that the loop goes on by these.
fn read_full(file: &mut impl Read, buf: &mut [u8]) -> usize
    ensures { (result ≤ length buf.old) × (length buf.new ≡ length buf.old) }
{
    let mut at = 0;
    while at < buf.len() {
        let n = file.read(&mut buf[at..]).unwrap_or(0);
        if n == 0 {
            break;
        }
        at += n;
    }
    at
}

// Reads n bytes, or as many as there are and have room.
fn read_part<'a>(file: &mut impl Read, n: usize, buf: &'a mut [u8]) -> &'a [u8]
    ensures { length result.now ≤ length buf.old }
{
    let room = n.min(buf.len());
    let came = read_full(file, &mut buf[..room]);
    &buf[..came]
}

// Two bytes as a number.
fn number(bytes: [u8; 2]) -> usize {
    u16::from_be_bytes(bytes) as usize
}

// How many streams the file says that it has.
fn read_count(file: &mut impl Read) -> usize {
    let mut head = [0u8; 2];
    read_full(file, &mut head);
    number(head)
}

// Reads the next stream and prints its line.
fn run_next(file: &mut impl Read, rt: &impl Print) -> io::Result<()> {
    let mut head = [0u8; 3];
    read_full(file, &mut head);
    let mut name = [0u8; 255];
    let name = read_part(file, head[0] as usize, &mut name);
    let mut bytes = [0u8; 65535];
    let bytes = read_part(file, number([head[1], head[2]]), &mut bytes);
    print_stream(rt, name, bytes)
}

// All streams of the file, one after the other.
pub(crate) fn run_all(rt: &(impl Files + Print + Eprint)) -> io::Result<()> {
    let mut file = match fs::open(rt, "streams") {
        Ok(file) => file,
        Err(error) => {
            fail(rt, "vectors: streams", error);
            return Ok(());
        }
    };
    for _ in 0..read_count(&mut file) {
        run_next(&mut file, rt)?;
    }
    Ok(())
}
