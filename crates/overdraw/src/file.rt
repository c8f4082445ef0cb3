// The files where the program stands, by their numbers.
ghost use Rattle.std.specs.Prelude.{length};
ghost use Rattle.std.specs.Str.{IsAscii};
ghost use Rattle.overdraw.specs.Read.{Within};

use crate::text::name_of;
use console::say::fail;
use console::take_from;
use std::io::{Eprint, Error, ErrorKind};
use std::rt::Files;
use std::{fs, str};

// Why a file's bytes do not come: it is missing, or it is there and cannot be read.
#[derive(Debug, Drop)]
pub(crate) enum Lost {
    Missing,
    Unreadable(Error),
}

// Bytes in ASCII, as text.
fn text_of(bytes: &[u8]) -> &str
    requires { IsAscii bytes.now }
{
    str::from_utf8(bytes).unwrap()
}

// Why a file could not be opened.
fn unopened(error: Error) -> Lost {
    if error.kind() == ErrorKind::NotFound {
        return Lost::Missing;
    }
    Lost::Unreadable(error)
}

// Looks for the file with number k, and reads it until it ends or the buffer is full: so many bytes came.
pub(crate) fn find(rt: &impl Files, k: u64, bytes: &mut [u8]) -> Result<usize, Lost>
    ensures { Within (length bytes.old) result }
{
    let name = name_of(k);
    let mut file = fs::open(rt, text_of(&name[..3])).map_err(unopened)?;
    take_from(&mut file, bytes).map_err(Lost::Unreadable)
}

// Says that the file with number k cannot be read, and why.
pub(crate) fn say_unread(rt: &impl Eprint, k: u64, error: Error) {
    let name = name_of(k);
    let path = text_of(&name[..3]);
    fail(
        rt,
        format_args!("overdraw: no totals: cannot read {path}"),
        error,
    );
}
