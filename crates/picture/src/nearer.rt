// Runs of pixels of which nothing but a nearer depth decides: what most triangles are drawn with. The loops know no pen, and that of rows and units no column.
ghost use Rattle.std.specs.Prelude.{◌≡◌, ◌+◌, ◌-◌, ◌/◌, ◌^◌, ◌<◌, ◌≤◌, false, length, if◌then◌else◌};
ghost use Rattle.picture.specs.declared.Kind.TheVariants.{Gouraud};
ghost use Rattle.picture.specs.Draw.{carried_one, is_plain, nearer_pen, span_offers};
ghost use Rattle.picture.specs.Place.{lies_plain, lies_tiled, rows_of};
ghost use Rattle.picture.specs.Loops.{along_tiles, PutsNearer, Runs, Fits, FitsTiles, Beside};
ghost use Rattle.picture.specs.Picture.{picture};
ghost use Rattle.picture.specs.Lent.{Draws};

use crate::carry::{pick, whole};
use crate::pixel::put_nearer;
use crate::place::{along_tiles, lies_plain, lies_tiled, place, ways_of};
use crate::{Carried, Frame, Kind, Memories, Pen, Run, Stretch};

// Whether nothing but a nearer depth decides of a figure's pixels, and both numbers are stored whole.
pub fn is_plain(pen: Pen, kind: Kind) -> bool
    ensures { result ≡ is_plain pen kind }
{
    let open = !kind.is_masked() | (pen.transparency == 65535);
    open & kind.is_deep()
        & !kind.is_edge()
        & pen.depth
        & pen.ienable
        & pen.zenable
        & (pen.planes == 65535)
}

// One offer at a place. One that does not pass stores what stands there: so nothing branches, and the loop takes several pixels at once. The
// numbers are taken out behind the reads: so those that are left have no branch either. n is the count so far.
fn put_chosen(at: usize, ki: u64, kz: u64, im: &mut [u16], zm: &mut [u16], n: u16) -> u16
    requires { (at < length im.old) × (at < length zm.old) × (n < 65535) }
    ensures { (PutsNearer at (ki / carried_one) (kz / carried_one) im zm n result) × (result ≤ n + 1) }
{
    let deep = zm[at];
    let stood = im[at];
    let z = whole(kz);
    let i = whole(ki);
    let near = z < deep;
    zm[at] = pick(near, z, deep);
    im[at] = pick(near, i, stood);
    pick(near, n + 1, n)
}

// Pixels that lie side by side. The loops of this file and of `steady` take the two memories each by itself, as those of `draw` do and for the same reason.
pub(crate) fn draw_run(run: Run, im: &mut [u16], zm: &mut [u16]) -> u64
    requires { Fits run (length im.old) (length zm.old) }
    ensures { Runs (λ j. run.base + j) run.i run.z run.count im zm 0 result }
{
    let mut i = run.i;
    let mut z = run.z;
    let mut n: u16 = 0;
    for j in 0..run.count {
        n = put_chosen(run.base + (j as usize), i.first, z.first, im, zm, n);
        i = i.after(1);
        z = z.after(1);
    }
    n as u64
}

// The same, and the loop is compiled once more for fewer than eight pixels, of which it takes none at once: so short rows prepare nothing for that.
fn draw_beside(run: Run, im: &mut [u16], zm: &mut [u16]) -> u64
    requires { Fits run (length im.old) (length zm.old) }
    ensures { Runs (λ j. run.base + j) run.i run.z run.count im zm 0 result }
{
    if run.count < 8 {
        return draw_run(run, im, zm);
    }
    draw_run(run, im, zm)
}

// The four pixels of a row of a tile, which lie side by side. Here a branch for each pixel is faster than a choice. n is the count so far.
fn draw_four(at: usize, i: Carried, z: Carried, im: &mut [u16], zm: &mut [u16], n: u64) -> u64
    requires { (at + 4 ≤ length im.old) × (at + 4 ≤ length zm.old) × (at ≤ 4295229438) × (n ≤ 65531) }
    ensures { (Runs (λ j. at + j) i z 4 im zm n result) × (result ≤ n + 4) }
{
    let mut ki = i;
    let mut kz = z;
    let mut passed = n;
    for j in 0..4 {
        passed = put_nearer(at + j, whole(ki.first), whole(kz.first), im, zm, passed);
        ki = ki.after(1);
        kz = kz.after(1);
    }
    passed
}

// The pixels of a row from column lo up to and without hi where they lie in tiles, four by four, and one by one at both ends, so that a turn
// is four columns or one, and no `for` over them; base is the row's first place. It is compiled into each of its calls: left to itself, LLVM
// passes one of them the stretch through memory.
#[inline(always)]
fn draw_tiled(base: usize, s: Stretch, im: &mut [u16], zm: &mut [u16]) -> u64
    requires { FitsTiles base s.lo s.hi (length im.old) (length zm.old) }
    ensures { Runs (λ j. base + along_tiles (s.lo + j)) s.i s.z (s.hi - s.lo) im zm 0 result }
{
    let mut i = s.i;
    let mut z = s.z;
    let mut x = s.lo;
    let mut passed: u64 = 0;
    while x < s.hi {
        if (x % 4 == 0) & (x + 4 <= s.hi) {
            passed = draw_four(base + along_tiles(x), i, z, im, zm, passed);
            i = i.after(4);
            z = z.after(4);
            x += 4;
        } else {
            passed = put_nearer(
                base + along_tiles(x),
                whole(i.first),
                whole(z.first),
                im,
                zm,
                passed,
            );
            i = i.after(1);
            z = z.after(1);
            x += 1;
        }
    }
    passed
}

// The same, and the loop is compiled once more for numbers to which nothing is added: a constant triangle's, of which docs/SPEED.md tells ("Tiles").
fn draw_tiles(base: usize, s: Stretch, im: &mut [u16], zm: &mut [u16]) -> u64
    requires { FitsTiles base s.lo s.hi (length im.old) (length zm.old) }
    ensures { Runs (λ j. base + along_tiles (s.lo + j)) s.i s.z (s.hi - s.lo) im zm 0 result }
{
    if (s.i.add == 0) & (s.z.add == 0) {
        let i = Carried { add: 0, ..s.i };
        let z = Carried { add: 0, ..s.z };
        return draw_tiled(base, Stretch { i, z, ..s }, im, zm);
    }
    draw_tiled(base, s, im, zm)
}

// What a unit of a board has of a stretch lies side by side.
fn own_run(frame: Frame, s: Stretch) -> Run
    requires { (s.lo < s.hi) × (s.hi ≤ frame.line) × (lies_plain frame ≡ false) × (lies_tiled frame ≡ false) }
    ensures { Beside frame s.lo s.hi s.y s.i s.z result }
{
    if let Some(share) = s.share(frame, ways_of(frame)) {
        return Run {
            base: place(frame, share.x, s.y),
            count: share.count,
            i: share.i,
            z: share.z,
        };
    }
    Run {
        base: 0,
        count: 0,
        i: s.i,
        z: s.z,
    }
}

// What a memory of rows or a unit has of it.
pub(crate) fn run_of(frame: Frame, s: Stretch) -> Run
    requires { (s.lo < s.hi) × (s.hi ≤ frame.line) × (lies_tiled frame ≡ false) }
    ensures { Beside frame s.lo s.hi s.y s.i s.z result }
{
    if lies_plain(frame) {
        return Run {
            base: place(frame, s.lo, s.y),
            count: s.hi - s.lo,
            i: s.i,
            z: s.z,
        };
    }
    own_run(frame, s)
}

// The pixels of a row in use from column lo up to and without hi, which is no more than the line length.
fn draw_row(frame: Frame, s: Stretch, m: &mut Memories) -> u64
    requires { (s.lo < s.hi) × (s.hi ≤ frame.line) × (s.y < rows_of frame (length m.old.i.now) (length m.old.z.now)) }
    ensures { Draws (nearer_pen frame) (λ rows. span_offers (nearer_pen frame) rows Gouraud s.lo s.hi s.y s.i s.z) m 0 result }
{
    if lies_tiled(frame) {
        return draw_tiles(place(frame, 0, s.y), s, m.i, m.z);
    }
    draw_beside(run_of(frame, s), m.i, m.z)
}

// The pixels of row y from column lo up to and without hi, their numbers carried, with the pen of which nothing but a nearer depth decides.
// Answers how many passed.
pub fn span_nearer(frame: Frame, s: Stretch, m: &mut Memories) -> u64
    ensures { Draws (nearer_pen frame) (λ rows. span_offers (nearer_pen frame) rows Gouraud s.lo s.hi s.y s.i s.z) m 0 result }
{
    if let Some(part) = s.within(frame, m.i.len(), m.z.len()) {
        return draw_row(frame, part, m);
    }
    0
}
