// The arguments that the program was started with. Which they are no contract can say.
ghost use Rattle.std.specs.Prelude.{◌≤◌, length};

use std::env::FillError;
use std::rt::Env;

// Whether there is an argument of this index; its text may be of any length.
fn is_given(env: &impl Env, index: usize) -> bool {
    let mut text = [0u8; 1];
    !matches!(env.arg(index, &mut text), Err(FillError::NotPresent))
}

// How many there are, the program's own name among them.
pub fn count(env: &impl Env) -> usize {
    for index in 0..usize::MAX {
        if !is_given(env, index) {
            return index;
        }
    }
    usize::MAX
}

// An argument, put into a buffer; empty where it is missing or longer than the buffer. (No Option: what the programs make of their arguments, `asked_of` of trace and of
// show, is said of an empty one.)
pub fn argument<'a>(env: &impl Env, index: usize, buf: &'a mut [u8]) -> &'a [u8]
    ensures { length result.now ≤ length buf.old }
{
    let size = env.arg(index, buf).unwrap_or(0);
    &buf[..size]
}
