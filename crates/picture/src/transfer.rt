// Pixels of pictures that go to memory and come from it as they are: neither window nor transparency nor depth is asked.
ghost use Rattle.std.specs.Prelude.{◌≡◌, ◌<◌, length, if◌then◌else◌, slice_index, slice_set};
ghost use Rattle.picture.specs.Store.{pixel_for, storable, read_of};
ghost use Rattle.picture.specs.Lent.{Fills};

use crate::pixel::{store_i, store_z};
use crate::place::place_inside;
use crate::{Frame, Memories, Pen};

// A number, stored in Z or in I where its pixel is inside the memory. `deep` is a truth value, as it is in the definitions that this promises
// (`pixel_for`, `read_of`) and in the register's bit of which it comes: an enum would be made of that bit and be one again in each of them.
pub fn store(pen: Pen, deep: bool, x: u16, y: u16, value: u16, m: &mut Memories)
    ensures { Fills pen (λ rows. storable pen rows (pixel_for deep x y value)) m }
{
    if let Some(at) = place_inside(pen.frame, x, y, m.i.len(), m.z.len()) {
        if deep {
            store_z(pen.zenable, at, value, m.z);
        } else {
            store_i(pen, at, value, m.i);
        }
    }
}

// The number in Z or in I at a pixel; 0 outside the memory, as the definition `read_of` says, which the promise of `chip`'s `read` rests on.
pub fn fetch(frame: Frame, deep: bool, x: u16, y: u16, im: &[u16], zm: &[u16]) -> u16
    ensures { result ≡ read_of frame deep x y im.now zm.now }
{
    if let Some(at) = place_inside(frame, x, y, im.len(), zm.len()) {
        return if deep { zm[at] } else { im[at] };
    }
    0
}
