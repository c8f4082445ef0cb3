// What the arguments ask for: all words, or those that have a pixel.
ghost use Rattle.std.specs.Prelude.{◌≡◌};
ghost use Rattle.trace.specs.Arguments.{coordinate_of, asked_of};

use crate::Usage;
use console::digits::{digits_only, value};
use picture::limits::LARGEST_COORDINATE;
use tracing::Pixel;

// The coordinate that an argument tells.
fn coordinate(arg: &[u8]) -> Option<u16>
    ensures { result ≡ coordinate_of arg.now }
{
    if arg.is_empty() {
        return None;
    }
    if !digits_only(arg) {
        return None;
    }
    let n = value(arg, LARGEST_COORDINATE as u32 + 1);
    if n > LARGEST_COORDINATE as usize {
        return None;
    }
    Some(n as u16)
}

// What the arguments ask for: a pixel, or none of them all. `count` has the program's own name among them, and an argument that is missing, or longer
// than 64 bytes, is empty.
pub(crate) fn asked(count: usize, first: &[u8], second: &[u8]) -> Result<Option<Pixel>, Usage>
    ensures { result ≡ asked_of count first.now second.now }
{
    if count < 2 {
        return Ok(None);
    }
    if count != 3 {
        return Err(Usage::Unclear);
    }
    // `ok_or` and `?` were tried here: the proof did not close as it stands, since both ways out go through what `?` hands on
    let Some(x) = coordinate(first) else {
        return Err(Usage::Unclear);
    };
    let Some(y) = coordinate(second) else {
        return Err(Usage::Unclear);
    };
    Ok(Some(Pixel { x, y }))
}
