// Where pixels lie in the lent memories.
ghost use Rattle.std.specs.Prelude.{◌≡◌, ◌*◌, ◌<◌, ◌≤◌, true, if◌then◌else◌, nat_lt};
ghost use Rattle.picture.specs.Place.{tiled, lies_plain, lies_tiled, ways_of, layout_of, spot_of, place_of, is_whole, width_of, rows_in, rows_of, mine, in_memory};
ghost use Rattle.picture.specs.Loops.{band_end, along_tiles, IsPart, IsPlace, IsShare, Shares, until_own};

use crate::limits::MOST_ROWS;
use crate::{Frame, Share, Stretch};

// The layout's number of tiles. It is a number as the record for C has it: `layout_of` of specs/Place.antt says what each tells.
pub const TILED: u16 = 1;

// Whether rows lie one after the other.
pub fn lies_plain(frame: Frame) -> bool
    ensures { result ≡ lies_plain frame }
{
    (frame.layout == 0) | (7 < frame.layout)
}

// Whether pixels lie in tiles.
pub fn lies_tiled(frame: Frame) -> bool
    ensures { result ≡ lies_tiled frame }
{
    frame.layout == TILED
}

// The units of the board, where pixels lie neither in rows nor in tiles.
pub(crate) fn ways_of(frame: Frame) -> u16
    ensures { (result ≡ ways_of frame) × (2 ≤ result) × (result ≤ 4) }
{
    if frame.layout < 4 { 2 } else { 4 }
}

// Whether the line length suits the layout.
fn is_whole(frame: Frame) -> bool
    ensures { result ≡ is_whole (layout_of frame) frame.line }
{
    if lies_plain(frame) {
        return frame.line != 0;
    }
    if lies_tiled(frame) {
        return (frame.line != 0) & (frame.line % 4 == 0);
    }
    (frame.line != 0) & (frame.line % ways_of(frame) == 0)
}

// The places of a row.
fn width_of(frame: Frame) -> u16
    ensures { result ≡ width_of (layout_of frame) frame.line }
{
    if lies_plain(frame) | lies_tiled(frame) {
        return frame.line;
    }
    frame.line / ways_of(frame)
}

// The whole rows, or bands of four rows, that so many places hold.
fn rows_in(frame: Frame, n: usize) -> usize
    requires { is_whole (layout_of frame) frame.line ≡ true }
    ensures { result ≡ rows_in (layout_of frame) frame.line n }
{
    let width = width_of(frame) as usize;
    if lies_tiled(frame) {
        return n / (4 * width) * 4;
    }
    n / width
}

// The rows in use of two memories of these lengths. (Here and where a pixel is asked about, the lengths are two numbers, as in the definitions: contracts speak of
// the lengths of what is lent, whatever holds it.)
pub fn rows_of(frame: Frame, ni: usize, nz: usize) -> usize
    ensures { result ≡ rows_of frame ni nz }
{
    if is_whole(frame) {
        return rows_in(frame, ni.min(nz)).min(MOST_ROWS);
    }
    0
}

// The rows up to the end of the band that has row y.
fn band_end(frame: Frame, y: u16) -> usize
    ensures { (result ≡ band_end (layout_of frame) y) × (result ≤ 65536) }
{
    if lies_tiled(frame) {
        return (y as usize) / 4 * 4 + 4;
    }
    y as usize + 1
}

// Whether row y is in use, without a division of the lengths.
fn has_row(frame: Frame, y: u16, ni: usize, nz: usize) -> bool
    ensures { result ≡ nat_lt y (rows_of frame ni nz) }
{
    if is_whole(frame) {
        let end = band_end(frame, y) * (width_of(frame) as usize);
        return ((y as usize) < MOST_ROWS) & (end <= ni) & (end <= nz);
    }
    false
}

impl Stretch {
    // What a memory has of a stretch: the columns up to the line length, where its row is in use; none if it has nothing.
    pub(crate) fn within(self, frame: Frame, ni: usize, nz: usize) -> Option<Stretch>
        ensures { IsPart frame (rows_of frame ni nz) self result }
    {
        let hi = self.hi.min(frame.line);
        if (self.lo < hi) & has_row(frame, self.y, ni, nz) {
            return Some(Stretch { hi, ..self });
        }
        None
    }

    // What a unit of a board has of a stretch inside the line: each of two or four columns; none if it has nothing.
    pub(crate) fn share(self, frame: Frame, ways: u16) -> Option<Share>
        requires { (Shares frame ways) × (self.lo < self.hi) × (self.hi ≤ frame.line) }
        ensures { IsShare frame ways self result }
    {
        let first = until_own(frame, ways, self.lo);
        let count = self.hi - self.lo;
        if first < count {
            return Some(Share {
                x: self.lo + first,
                count: (count - first - 1) / ways + 1,
                i: self.i.strided(first, ways),
                z: self.z.strided(first, ways),
            });
        }
        None
    }
}

// Whether the memory has column x.
fn is_mine(frame: Frame, x: u16) -> bool
    ensures { result ≡ mine (layout_of frame) x }
{
    if lies_plain(frame) | lies_tiled(frame) {
        return true;
    }
    let ways = ways_of(frame);
    x % ways + ways == frame.layout
}

// How many columns from column lo on the first one that a unit has is.
fn until_own(frame: Frame, ways: u16, lo: u16) -> u16
    requires { Shares frame ways }
    ensures { (result ≡ until_own ways frame.layout lo) × (result < ways) }
{
    (frame.layout - lo % ways) % ways
}

// Whether pixel (x, y) is inside the memory.
pub(crate) fn is_inside(frame: Frame, x: u16, y: u16, ni: usize, nz: usize) -> bool
    ensures { result ≡ in_memory frame (rows_of frame ni nz) x y }
{
    (x < frame.line) & has_row(frame, y, ni, nz) & is_mine(frame, x)
}

// The place of pixel (x, y) in tiles.
pub fn place_tiled(line: u16, x: u16, y: u16) -> usize
    ensures { (result ≡ spot_of tiled line x y) × (result ≤ 4294967295) }
{
    let tile = ((y / 4) as usize) * ((line / 4) as usize) + (x / 4) as usize;
    tile * 16 + (4 * (y % 4) + x % 4) as usize
}

// How far a row's pixel x lies from its first one in tiles.
pub(crate) fn along_tiles(x: u16) -> usize
    ensures { (result ≡ along_tiles x) × (result ≤ 262143) }
{
    (x as usize) + 12 * ((x / 4) as usize)
}

// The same in rows or in tiles. It is a choice and no branch.
pub(crate) fn along(tiled: bool, x: u16) -> usize
    ensures { (result ≡ (if tiled then along_tiles x else x)) × (result ≤ 262143) }
{
    if tiled { along_tiles(x) } else { x as usize }
}

// The place of pixel (x, y). (A pixel is two numbers in the calls about places, as document 01 and the definitions have it: `place_of frame x y`, `offered pen rows kind x y`.)
pub fn place(frame: Frame, x: u16, y: u16) -> usize
    ensures { (result ≡ place_of frame x y) × (result ≤ 4294967295) }
{
    if lies_plain(frame) {
        return (y as usize) * (frame.line as usize) + (x as usize);
    }
    if lies_tiled(frame) {
        return place_tiled(frame.line, x, y);
    }
    let ways = ways_of(frame);
    (y as usize) * ((frame.line / ways) as usize) + ((x / ways) as usize)
}

// The place of pixel (x, y), if it is inside the memory.
pub(crate) fn place_inside(frame: Frame, x: u16, y: u16, ni: usize, nz: usize) -> Option<usize>
    ensures { IsPlace frame ni nz x y result }
{
    if is_inside(frame, x, y, ni, nz) {
        return Some(place(frame, x, y));
    }
    None
}
