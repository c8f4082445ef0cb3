// What figures are drawn with: a pixel, and a run of pixels of one row.
ghost use Rattle.std.specs.Prelude.{◌≡◌, ◌+◌, ◌<◌, ◌≤◌, min, length};
ghost use Rattle.picture.specs.Draw.{placed, shown, span_offers};
ghost use Rattle.picture.specs.Loops.{InWhole, InShares, OwnColumns, own_offers};
ghost use Rattle.picture.specs.Place.{place_of, rows_of};
ghost use Rattle.picture.specs.Offer.{keep, offer};
ghost use Rattle.picture.specs.Lent.{Draws, DrawsApart, Kept, held, rows_over};

use crate::carry::whole;
use crate::pixel::{is_offered, is_shown, put_at};
use crate::place::{along, lies_plain, lies_tiled, place, ways_of};
use crate::{Kind, Memories, Pen, Share, Stretch, Vertex};

// A pixel of a figure, drawn where it is offered. Answers how many pixels passed.
pub fn put(pen: Pen, kind: Kind, v: Vertex, m: &mut Memories) -> u64
    ensures { Draws pen (λ rows. keep pen rows (offer kind v.x v.y v.i v.z)) m 0 result }
{
    if is_offered(pen, kind, v.x, v.y, m.i.len(), m.z.len()) {
        let at = place(pen.frame, v.x, v.y);
        return put_at(pen, kind, at, v.i, v.z, m.i, m.z, 0);
    }
    0
}

// A pixel of a figure at its place, for a caller that knows that it is offered. Answers how many pixels passed.
pub fn put_placed(pen: Pen, kind: Kind, at: usize, i: u16, z: u16, m: &mut Memories) -> u64
    ensures { Kept m × (held m.new result ≡ placed pen kind at i z (held m.old 0)) }
{
    if (at < m.i.len()) & (at < m.z.len()) {
        return put_at(pen, kind, at, i, z, m.i, m.z, 0);
    }
    0
}

// A pixel inside the memory, at its place, as the transparency pattern lets it through; n is the count so far.
fn draw_one(
    pen: Pen,
    kind: Kind,
    v: Vertex,
    at: usize,
    im: &mut [u16],
    zm: &mut [u16],
    n: u64,
) -> u64
    requires { (at ≡ place_of pen.frame v.x v.y) × (at < length im.old) × (at < length zm.old) × (n ≤ 65535) }
    ensures { (DrawsApart pen (λ _. shown pen (offer kind v.x v.y v.i v.z)) im zm n result) × (result ≤ n + 1) }
{
    if !kind.is_masked() | is_shown(pen, v.x, v.y) {
        return put_at(pen, kind, at, v.i, v.z, im, zm, n);
    }
    n
}

// The pixels of a row in use from column lo up to and without hi, which is no more than the line length, in rows or in tiles. The loops take the two
// memories each by itself: of a struct, LLVM would read where they lie again in each turn.
fn fill(pen: Pen, kind: Kind, s: Stretch, im: &mut [u16], zm: &mut [u16]) -> u64
    requires { InWhole pen.frame s.lo s.hi s.y (rows_of pen.frame (length im.old) (length zm.old)) }
    ensures { DrawsApart pen (λ rows. span_offers pen rows kind s.lo s.hi s.y s.i s.z) im zm 0 result }
{
    let tiled = lies_tiled(pen.frame);
    let base = place(pen.frame, 0, s.y);
    let mut i = s.i;
    let mut z = s.z;
    let mut n: u64 = 0;
    for x in s.lo..s.hi {
        let v = Vertex {
            x,
            y: s.y,
            i: whole(i.first),
            z: whole(z.first),
        };
        n = draw_one(pen, kind, v, base + along(tiled, x), im, zm, n);
        i = i.after(1);
        z = z.after(1);
    }
    n
}

// The pixels of a row in use that a unit has: each so many columns on, and side by side. One loop with rows and tiles would be no plainer: columns and places go on
// by different steps here.
fn fill_own(
    pen: Pen,
    kind: Kind,
    ways: u16,
    own: Share,
    y: u16,
    im: &mut [u16],
    zm: &mut [u16],
) -> u64
    requires { OwnColumns pen.frame ways own.x own.count y (rows_of pen.frame (length im.old) (length zm.old)) }
    ensures { DrawsApart pen (λ _. own_offers pen kind ways own.x own.count y own.i own.z) im zm 0 result }
{
    let base = place(pen.frame, own.x, y);
    let mut i = own.i;
    let mut z = own.z;
    let mut n: u64 = 0;
    for j in 0..own.count {
        let v = Vertex {
            x: own.x + ways * j,
            y,
            i: whole(i.first),
            z: whole(z.first),
        };
        n = draw_one(pen, kind, v, base + (j as usize), im, zm, n);
        i = i.after(1);
        z = z.after(1);
    }
    n
}

// The same where a unit of a board has each of so many columns.
fn fill_shared(pen: Pen, kind: Kind, s: Stretch, m: &mut Memories) -> u64
    requires { InShares pen.frame s.lo s.hi s.y (rows_over pen.frame m.old) }
    ensures { Draws pen (λ rows. span_offers pen rows kind s.lo s.hi s.y s.i s.z) m 0 result }
{
    let ways = ways_of(pen.frame);
    if let Some(own) = s.share(pen.frame, ways) {
        return fill_own(pen, kind, ways, own, s.y, m.i, m.z);
    }
    0
}

// The same in any layout. (What `Stretch::within` answers has these facts, and they stand in the contracts from there to the loops: two of the three speak of the
// frame and of the memories, which a stretch does not hold.)
fn fill_row(pen: Pen, kind: Kind, s: Stretch, m: &mut Memories) -> u64
    requires { (s.lo < s.hi) × (s.hi ≤ pen.frame.line) × (s.y < rows_over pen.frame m.old) }
    ensures { Draws pen (λ rows. span_offers pen rows kind s.lo s.hi s.y s.i s.z) m 0 result }
{
    if lies_plain(pen.frame) | lies_tiled(pen.frame) {
        return fill(pen, kind, s, m.i, m.z);
    }
    fill_shared(pen, kind, s, m)
}

// The pixels of row y from column lo up to and without hi, their numbers carried; the window is not asked about. Answers how many passed.
pub fn span(pen: Pen, kind: Kind, s: Stretch, m: &mut Memories) -> u64
    ensures { Draws pen (λ rows. span_offers pen rows kind s.lo s.hi s.y s.i s.z) m 0 result }
{
    if let Some(part) = s.within(pen.frame, m.i.len(), m.z.len()) {
        return fill_row(pen, kind, part, m);
    }
    0
}
