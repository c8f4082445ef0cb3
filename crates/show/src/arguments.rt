// What the arguments ask for: which memory, in levels or as it stands, and how many places the memories have.
ghost use Rattle.std.specs.Prelude.{◌≡◌, ◌≤◌};
ghost use Rattle.show.specs.Arguments.{places_of, places_if, memory_of, is_levels, sized_of, scaled_of, asked_of};

use crate::{Memory, Usage, Wanted};
use console::digits::{digits_only, value};

// How many places an argument asks for.
fn places_of(arg: &[u8]) -> Result<usize, Usage>
    ensures { result ≡ places_of arg.now }
{
    if !digits_only(arg) {
        return Err(Usage::Unclear);
    }
    match value(arg, 1048577) {
        0 => Err(Usage::Unclear),
        places @ 1..=1048576 => Ok(places),
        _ => Err(Usage::TooMany),
    }
}

// How many places an argument asks for, if it is given.
fn places_if(given: bool, arg: &[u8]) -> Result<Option<usize>, Usage>
    ensures { result ≡ places_if given arg.now }
{
    if !given {
        return Ok(None);
    }
    Ok(Some(places_of(arg)?))
}

// Which memory an argument names, if it does. (No `From`: most texts name none.)
fn memory_of(arg: &[u8]) -> Option<Memory>
    ensures { result ≡ memory_of arg.now }
{
    if arg == b"i".as_slice() {
        return Some(Memory::Intensity);
    }
    if arg == b"z".as_slice() {
        return Some(Memory::Depth);
    }
    None
}

// Whether an argument is the word `levels`.
fn is_levels(arg: &[u8]) -> bool
    ensures { result ≡ is_levels arg.now }
{
    arg == b"levels".as_slice()
}

// What is asked for where `used` arguments have been read and this is the next, if there is one.
fn sized(
    memory: Memory,
    levels: bool,
    used: usize,
    count: usize,
    arg: &[u8],
) -> Result<Wanted, Usage>
    requires { used ≤ 3 }
    ensures { result ≡ sized_of memory levels used count arg.now }
{
    if used + 1 < count {
        return Err(Usage::Unclear);
    }
    let places = places_if(used < count, arg)?;
    Ok(Wanted {
        memory,
        levels,
        places,
    })
}

// The same, where the next may be `levels`.
fn scaled(
    memory: Memory,
    used: usize,
    count: usize,
    first: &[u8],
    second: &[u8],
) -> Result<Wanted, Usage>
    requires { used ≤ 2 }
    ensures { result ≡ scaled_of memory used count first.now second.now }
{
    if is_levels(first) {
        return sized(memory, true, used + 1, count, second);
    }
    sized(memory, false, used, count, first)
}

// What the arguments ask for. `count` has the program's own name among them, and an argument that is missing, or longer than 64 bytes, is empty.
pub(crate) fn asked(
    count: usize,
    first: &[u8],
    second: &[u8],
    third: &[u8],
) -> Result<Wanted, Usage>
    ensures { result ≡ asked_of count first.now second.now third.now }
{
    match memory_of(first) {
        None => scaled(Memory::Intensity, 1, count, first, second),
        Some(memory) => scaled(memory, 2, count, second, third),
    }
}
