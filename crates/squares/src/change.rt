// Whether a square of side 8 of two pictures differs.
ghost use Rattle.std.specs.Prelude.{◌≡◌, ◌+◌, ◌≤◌, ◌<◌, length};
ghost use Rattle.squares.specs.Squares.{any_in};
ghost use Rattle.squares.specs.Change.{run_differs, differs};

use crate::pictures::Pictures;
use crate::size::Corner;

// Whether one of n places from `at` on differs. (No test ends the loop early, as one would in a comparison of slices: so LLVM compares eight places at once.)
fn run_differs(old: &[u16], new: &[u16], at: usize, n: usize) -> bool
    requires n_in_bounds { at + n ≤ length old.now }
    requires n_in_bounds_2 { at + n ≤ length new.now }
    ensures { result ≡ run_differs old.now new.now at n }
{
    let mut some = false;
    for i in 0..n {
        some |= old[at + i] != new[at + i];
    }
    some
}

// The same. Most rows of a square have eight places, and with that number written down the loop is compiled for it.
fn row_differs(old: &[u16], new: &[u16], at: usize, n: usize) -> bool
    requires n_in_bounds { at + n ≤ length old.now }
    requires n_in_bounds_2 { at + n ≤ length new.now }
    ensures { result ≡ run_differs old.now new.now at n }
{
    if n == 8 {
        return run_differs(old, new, at, 8);
    }
    run_differs(old, new, at, n)
}

// Whether a square, whose lower left corner is inside the pictures, has a difference inside them.
pub(crate) fn square_differs(pictures: &Pictures, square: Corner) -> bool
    requires inside { (square.x < pictures.now.size.width) × (square.y < pictures.now.size.rows) }
    ensures { result ≡ any_in (differs pictures.now.old.now pictures.now.new.now pictures.now.size.width pictures.now.size.rows) 8 square.x square.y }
{
    let Pictures { old, new, size } = *pictures;
    let inside = size.clip(square);
    for j in 0..inside.rows {
        if row_differs(
            old,
            new,
            (square.y + j) * size.width + square.x,
            inside.width,
        ) {
            return true;
        }
    }
    false
}
