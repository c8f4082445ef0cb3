// The console of the programs: what they read, standard input or another reader, to its end or until a lent buffer is full; what they
// say on standard error; and the arguments that they were started with. Which bytes come no contract can say; specs/Taken.antt says how many may.
// Beside it, room for what is read (specs/Room.antt), and numbers as arguments tell them (specs/Digits.antt).
#![tactic(auto)]

pub mod args;
pub mod digits;
pub mod say;

ghost use Rattle.std.specs.Prelude.{length};
ghost use Rattle.console.specs.Taken.{Within};
ghost use Rattle.console.specs.Room.{Filled};

use std::io;
use std::io::{Input, Read};

// Reads until the input ends or the buffer is full: the bytes may come in pieces, each as long as the reader likes, so that the loop goes on by these.
// How many came, or why a read failed.
pub fn take_from<R: Read>(reader: &mut R, buf: &mut [u8]) -> io::Result<usize>
    ensures { Within (length buf.old) result }
{
    let mut at = 0;
    while at < buf.len() {
        let n = reader.read(&mut buf[at..])?;
        if n == 0 {
            break;
        }
        at += n;
    }
    Ok(at)
}

// The same of standard input.
pub fn take(rt: &impl Input, buf: &mut [u8]) -> io::Result<usize>
    ensures { Within (length buf.old) result }
{
    let mut reader = rt.reader();
    take_from(&mut reader, buf)
}

// Room for N of anything, each the same. The promise has the length beside the places, so that no proof that uses such an array looks at its places
// one by one. The programs' buffers are arrays, and no Vec: a program ends as it always did on every input, and a Vec may find no memory.
pub fn room<T: Copy, const N: usize>(value: T) -> [T; N]
    ensures { Filled N value result }
{
    [value; N]
}

// Room for a piece of a long input or output, of 65,536 bytes. This and the next three name what programs share; others call `room` themselves.
pub fn piece() -> [u8; 65536]
    ensures { Filled 65536 0 result }
{
    room::<u8, 65536>(0)
}

// Room for a recording of 1,048,576 bytes and one byte more, which is enough to tell that it is too long.
pub fn recording() -> [u8; 1048577]
    ensures { Filled 1048577 0 result }
{
    room::<u8, 1048577>(0)
}

// Room for the words of such a recording.
pub fn words() -> [u32; 419430]
    ensures { Filled 419430 0 result }
{
    room::<u32, 419430>(0)
}

// Places for a memory, each with the same number.
pub fn blank(n: u16) -> [u16; 1048576]
    ensures { Filled 1048576 n result }
{
    room::<u16, 1048576>(n)
}
