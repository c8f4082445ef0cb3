// One pixel: whether it is offered, whether it passes, and what it then stores.
ghost use Rattle.std.specs.Prelude.{◌≡◌, ◌+◌, ◌<◌, ◌≤◌, true, length, if◌then◌else◌, slice_index, slice_set};
ghost use Rattle.picture.specs.Offer.{is_masked, in_window, shows, offered, offer};
ghost use Rattle.picture.specs.Place.{rows_of};
ghost use Rattle.picture.specs.Loops.{Puts, PutsNearer};
ghost use Rattle.picture.specs.Picture.{is_deep, in_planes, is_edge, wins, passes, new_i};

use crate::place::is_inside;
use crate::{Kind, Pen};
use std::cmp::Ordering;

impl Kind {
    // Whether the transparency pattern concerns figures of this kind.
    pub(crate) fn is_masked(self) -> bool
        ensures { result ≡ is_masked self }
    {
        matches!(self, Kind::Constant | Kind::Line0 | Kind::Line1)
    }

    // Whether the depth test and the Z memory concern figures of this kind.
    pub(crate) fn is_deep(self) -> bool
        ensures { result ≡ is_deep self }
    {
        matches!(self, Kind::Gouraud | Kind::Constant | Kind::Line2)
    }

    // Whether figures of this kind pass at equal depth.
    pub(crate) fn is_edge(self) -> bool
        ensures { result ≡ is_edge self }
    {
        self == Kind::Line2
    }

    // Whether a pixel of a figure passes the depth test where its depth stands so to the old one: nearer is less, and farther greater.
    fn wins(self, how: Ordering) -> bool
        ensures { result ≡ wins self how }
    {
        match how {
            Ordering::Less => true,
            Ordering::Equal => self.is_edge(),
            Ordering::Greater => false,
        }
    }
}

// Whether the transparency pattern keeps pixel (x, y).
pub(crate) fn is_shown(pen: Pen, x: u16, y: u16) -> bool
    ensures { result ≡ shows pen x y }
{
    (pen.transparency >> (4 * (y % 4) + x % 4)) & 1 == 1
}

// Whether pixel (x, y) is inside the window.
pub fn is_in_window(pen: Pen, x: u16, y: u16) -> bool
    ensures { result ≡ in_window pen x y }
{
    (pen.left <= x) & (x <= pen.right) & (pen.bottom <= y) & (y <= pen.top)
}

// Whether a pixel of a figure is offered, with memories of these lengths.
pub(crate) fn is_offered(pen: Pen, kind: Kind, x: u16, y: u16, ni: usize, nz: usize) -> bool
    ensures { result ≡ offered pen (rows_of pen.frame ni nz) (offer kind x y 0 0) }
{
    is_in_window(pen, x, y)
        & is_inside(pen.frame, x, y, ni, nz)
        & (!kind.is_masked() | is_shown(pen, x, y))
}

// The new number in the set planes, the old one in the others.
fn in_planes(planes: u16, old: u16, new: u16) -> u16
    ensures { result ≡ in_planes planes old new }
{
    (old & !planes) | (new & planes)
}

// Whether a pixel passes at a place. The depth memory is read only where the depth is tested.
fn is_passed(pen: Pen, kind: Kind, at: usize, z: u16, zm: &[u16]) -> bool
    requires { at < length zm.now }
    ensures { result ≡ passes pen kind z (slice_index zm.now at) }
{
    if pen.depth & kind.is_deep() {
        return kind.wins(z.cmp(&zm[at]));
    }
    true
}

// The passed number I, stored at a place.
pub(crate) fn store_i(pen: Pen, at: usize, i: u16, im: &mut [u16])
    requires { at < length im.old }
    ensures { im.new ≡ slice_set im.old at (new_i pen i (slice_index im.old at)) }
{
    if pen.ienable {
        im[at] = in_planes(pen.planes, im[at], i);
    }
}

// A depth, stored at a place where that is enabled.
pub(crate) fn store_z(enabled: bool, at: usize, z: u16, zm: &mut [u16])
    requires { at < length zm.old }
    ensures { zm.new ≡ slice_set zm.old at (if enabled then z else slice_index zm.old at) }
{
    if enabled {
        zm[at] = z;
    }
}

// One offer at a place; n is the count so far, and the next count is the answer. (That the place is in both memories stands in the contracts from here on: it is a
// fact of a number and of two lent slices, and a type of all three would lend both anew for each pixel.)
pub(crate) fn put_at(
    pen: Pen,
    kind: Kind,
    at: usize,
    i: u16,
    z: u16,
    im: &mut [u16],
    zm: &mut [u16],
    n: u64,
) -> u64
    requires { (at < length im.old) × (at < length zm.old) × (n ≤ 65535) }
    ensures { (Puts pen kind at i z im zm n result) × (result ≤ n + 1) }
{
    if is_passed(pen, kind, at, z, zm) {
        store_i(pen, at, i, im);
        store_z(pen.zenable & kind.is_deep(), at, z, zm);
        return n + 1;
    }
    n
}

// One offer at a place, of the sort that `is_plain` finds.
pub(crate) fn put_nearer(at: usize, i: u16, z: u16, im: &mut [u16], zm: &mut [u16], n: u64) -> u64
    requires { (at < length im.old) × (at < length zm.old) × (n ≤ 65535) }
    ensures { (PutsNearer at i z im zm n result) × (result ≤ n + 1) }
{
    if z < zm[at] {
        im[at] = i;
        zm[at] = z;
        return n + 1;
    }
    n
}
