// Copies listed squares from the new picture into a view.
ghost use Rattle.std.specs.Prelude.{◌≡◌, map, ◌+◌, ◌*◌, ◌≤◌, length};
ghost use Rattle.squares.specs.Squares.{corner_of};
ghost use Rattle.squares.specs.Copy.{is_among, overlay, copy_square, copy_squares};
ghost use Rattle.squares.specs.Calls.{is_square, are_squares};

use crate::size::{Corner, Size};

// Whether a number tells a square such as is listed for a picture.
fn is_square(number: u32, size: Size) -> bool
    ensures { result ≡ is_square size.width size.rows (corner_of number) }
{
    size.lists(Corner::from(number))
}

// Whether all listed numbers do. (Not by the slice's iterator: it answers an `Option` of a reference, which is laid out otherwise where addresses
// have another size, and web/build compiles this code for such a processor.)
pub(crate) fn are_squares(list: &[u32], size: Size) -> bool
    ensures { result ≡ are_squares size.width size.rows (map corner_of list.now) }
{
    for k in 0..list.len() {
        if !is_square(list[k], size) {
            return false;
        }
    }
    true
}

// The n places from `at` on take the new picture's numbers. (A loop, as in `write`; besides, `copy_from_slice` is compiled to a call of memmove here, which an archive
// for C would then want of its host beside memcpy and memset.)
fn copy_run(new: &[u16], at: usize, n: usize, view: &mut [u16])
    requires len { length new.now ≡ length view.old }
    requires n_in_bounds { at + n ≤ length view.old }
    ensures { view.new ≡ overlay (is_among n at) new.now 0 view.old }
{
    for i in 0..n {
        view[at + i] = new[at + i];
    }
}

// Copies a square, as far as it is inside the picture.
fn copy_square(new: &[u16], size: Size, square: Corner, view: &mut [u16])
    requires { (length new.now ≡ size.width * size.rows) × (length view.old ≡ size.width * size.rows) }
    ensures { view.new ≡ copy_square size.width new.now view.old square }
{
    if !size.has(square) {
        return;
    }
    let inside = size.clip(square);
    for j in 0..inside.rows {
        copy_run(
            new,
            (square.y + j) * size.width + square.x,
            inside.width,
            view,
        );
    }
}

// Copies the listed squares, one after the other. (By places, as `are_squares`.)
pub(crate) fn copy_listed(list: &[u32], new: &[u16], size: Size, view: &mut [u16])
    requires { (length new.now ≡ size.width * size.rows) × (length view.old ≡ size.width * size.rows) }
    ensures { view.new ≡ copy_squares size.width new.now view.old (map corner_of list.now) }
{
    for k in 0..list.len() {
        copy_square(new, size, Corner::from(list[k]), view);
    }
}
