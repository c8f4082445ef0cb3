// The call of the crate mending for a host in C. (Said again here: a static library exports the marked functions of its own crate alone.)
#![tactic(auto)]

ghost use Rattle.std.specs.Prelude.{◌≡◌};
ghost use Rattle.mending.specs.Mend.{outcome_over, mending_over};

use mending::Mended;

// Mends a recording: writes the good stream of the whole words that are not refused, from reset on, lists the others, and leaves in the
// memories what all words leave, refused ones skipped. Refuses memories that differ in length, then too little room.
#[unsafe(no_mangle)]
pub extern "C" fn dextolumen_mend(
    bytes: &[u8],
    out: &mut [u8],
    indices: &mut [u64],
    numbers: &mut [u8],
    im: &mut [u16],
    zm: &mut [u16],
) -> Mended
    ensures { outcome_over result out indices numbers im zm ≡ mending_over bytes out indices numbers im zm }
{
    mending::dextolumen_mend(bytes, out, indices, numbers, im, zm)
}
