// Mending damaged recordings: the whole words that are not refused make a good stream, and the others are listed. specs/Mend.antt says
// what is kept, what is dropped, and what the call tells and leaves. The call is for C too (include/dextolumen.h), exported by `mending_c`.
#![tactic(auto)]

mod sort;

ghost use Rattle.std.specs.Prelude.{◌≡◌};
ghost use Rattle.ground.specs.Refusal.{number};
ghost use Rattle.mending.specs.Mend.{cut_of, cleared_of, refused, outcome_over, mending_over};

use crate::sort::{kept, sort};
use chip::run::run;
use ground::Refusal;
use stream::read::{checked, held};

// What mending tells: the number that refused it, 0 for none; the length of the new stream; how many words were dropped; how many bits
// were cut from the end; and whether a closing half byte that was not 0 was cleared, 1 or 0. All are numbers of 64 bits, as C takes them.
#[repr(C)]
#[derive(Clone, Copy)]
pub struct Mended {
    pub refusal: u64,
    pub size: usize,
    pub dropped: usize,
    pub cut: u64,
    pub cleared: u64,
}

// How many bits are cut from the end.
#[tactic(auto, unfolding(crate::specs::Mend::cut_of))]
fn cut_bits(bytes: &[u8]) -> u64
    ensures { result ≡ cut_of bytes.now }
{
    [0u64, 8, 16, 0, 12][bytes.len() % 5]
}

// Whether there is a closing half byte to clear, as C takes it: no other stream is refused for its tail.
fn half_cleared(bytes: &[u8]) -> u64
    ensures { result ≡ cleared_of bytes.now }
{
    match checked(bytes) {
        Err(refusal) => u64::from(refusal == Refusal::BadTail),
        Ok(()) => 0,
    }
}

// A refusal.
fn refusing(refusal: Refusal) -> Mended
    ensures { result ≡ refused (number refusal) }
{
    Mended {
        refusal: refusal.into(),
        size: 0,
        dropped: 0,
        cut: 0,
        cleared: 0,
    }
}

// Mends a recording: writes the good stream of the whole words that are not refused, from reset on, lists the others, and leaves in the
// memories what all words leave, refused ones skipped. Refuses memories that differ in length, then too little room.
#[unsafe(no_mangle)]
pub extern "C" fn dextolumen_mend(
    bytes: &[u8],
    out: &mut [u8],
    indices: &mut [u64],
    numbers: &mut [u8],
    im: &mut [u16],
    zm: &mut [u16],
) -> Mended
    ensures { outcome_over result out indices numbers im zm ≡ mending_over bytes out indices numbers im zm }
{
    if im.len() != zm.len() {
        return refusing(Refusal::Unsound);
    }
    let count = kept(bytes);
    // rounded up by hand, as `Room` and `outcome` of specs/ have it
    let size = (count * 5 + 1) / 2;
    let dropped = held(bytes) - count;
    if (out.len() < size) | (indices.len() < dropped) | (numbers.len() < dropped) {
        return refusing(Refusal::NoRoom);
    }
    sort(bytes, out, indices, numbers);
    run(&out[..size], im, zm);
    Mended {
        refusal: 0,
        size,
        dropped,
        cut: cut_bits(bytes),
        cleared: half_cleared(bytes),
    }
}
