// Pictures back and forth: a pixel to the region's place, and one from it.
ghost use Rattle.std.specs.Prelude.{◌≡◌};
ghost use Rattle.picture.specs.Picture.{picture};
ghost use Rattle.registers.specs.Next.{pen_of};
ghost use Rattle.chip.specs.Chip.{picture_stores};
ghost use Rattle.chip.specs.Read.{pixel_of, read_told, reading};
ghost use Rattle.picture.specs.Lent.{Fills};
ghost use Rattle.machine.specs.Machine.{memories};

use ground::Refusal;
use picture::Memories;
use picture::transfer::{fetch, store};
use refusals::read_checked;
use registers::Registers;

// Stores PTRN's number at the region's pixel.
pub(crate) fn load(r: Registers, value: u16, m: &mut Memories)
    ensures { Fills (pen_of r) (λ rows. picture_stores rows r value) m }
{
    let deep = r.is_deep_picture();
    store(r.pen(), deep, r.region.x, r.region.y, value, m);
}

// The number at the region's pixel.
fn pixel(r: Registers, im: &[u16], zm: &[u16]) -> u16
    ensures { result ≡ pixel_of r (memories im.now zm.now) }
{
    let deep = r.is_deep_picture();
    fetch(r.frame, deep, r.region.x, r.region.y, im, zm)
}

// The answer to an accepted read call: the pixel, and the next registers.
#[derive(Clone, Copy)]
pub struct Reading {
    pub pixel: u16,
    pub registers: Registers,
}

// Reads the region's pixel and moves the region on, or refuses and leaves the registers as they were. Calls for C lend the two memories for reading alone and
// hand them on, and of such two no `Memories` can be made, so that they stay two slices here.
#[tactic(auto, unfolding(crate::specs::Read::reading))]
pub fn read(r: Registers, im: &[u16], zm: &[u16]) -> Result<Reading, Refusal>
    ensures { read_told r result ≡ reading r (memories im.now zm.now) }
{
    read_checked(r, im.len(), zm.len())?;
    Ok(Reading {
        pixel: pixel(r, im, zm),
        registers: r.transferred(),
    })
}
