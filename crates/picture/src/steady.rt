// Rows of pixels that all have the same two numbers, of which nothing but a nearer depth decides: what constant triangles are drawn with. Eight
// pixels are read before any of them is written, and each has a count of its own: so eight are taken at once, and nothing asks whether memories overlap.
ghost use Rattle.std.specs.Prelude.{◌≡◌, ◌+◌, ◌<◌, ◌≤◌, length};
ghost use Rattle.picture.specs.Draw.{nearer_pen, steady_of, steady_offers};
ghost use Rattle.picture.specs.Loops.{Runs, Fits, Stays, eight_at, eight_set, pick_eight, count_eight, sum_of};
ghost use Rattle.picture.specs.Lent.{Draws};

use crate::carry::{pick, whole};
use crate::nearer::{draw_run, run_of};
use crate::place::lies_tiled;
use crate::{Carried, Frame, Memories, Run, Stretch};

// The eight numbers of a memory from a place on. The loops over eight count places and call no `copy_from_slice` or `zip`: of those LLVM makes no
// vectors here.
fn read_eight(at: usize, m: &[u16]) -> [u16; 8]
    requires { at + 8 ≤ length m.now }
    ensures { result ≡ eight_at at m.now }
{
    let mut read = [0; 8];
    for k in 0..8 {
        read[k] = m[at + k];
    }
    read
}

// Eight numbers stored from a place on.
fn write_eight(at: usize, v: [u16; 8], m: &mut [u16])
    requires { at + 8 ≤ length m.old }
    ensures { m.new ≡ eight_set at v m.old }
{
    for k in 0..8 {
        m[at + k] = v[k];
    }
}

// For each of eight pixels the new number where depth z is nearer, the old one where it is not.
fn pick_eight(z: u16, deep: [u16; 8], new: u16, old: [u16; 8]) -> [u16; 8]
    ensures { result ≡ pick_eight z deep new old }
{
    let mut picked = [0; 8];
    for k in 0..8 {
        picked[k] = pick(z < deep[k], new, old[k]);
    }
    picked
}

// For each of eight pixels one more where depth z is nearer.
fn count_eight(z: u16, deep: [u16; 8], n: [u16; 8]) -> [u16; 8]
    requires { sum_of n < 65535 }
    ensures { result ≡ count_eight z deep n }
{
    let mut counted = [0; 8];
    for k in 0..8 {
        counted[k] = pick(z < deep[k], n[k] + 1, n[k]);
    }
    counted
}

// Eight numbers summed up. (Place by place: what hands an array's numbers over one by one is compiled to a copy of them on the stack and a loop over that, at each row.)
#[tactic(auto, using(crate::proofs::Eights::eight_sum))]
fn sum_eight(n: [u16; 8]) -> u16
    requires { sum_of n ≤ 65535 }
    ensures { result ≡ sum_of n }
{
    n[0] + n[1] + n[2] + n[3] + n[4] + n[5] + n[6] + n[7]
}

// The eight pixels from a place on. n has the counts so far.
fn draw_eight(at: usize, i: u16, z: u16, im: &mut [u16], zm: &mut [u16], n: [u16; 8]) -> [u16; 8]
    requires { (at + 8 ≤ length im.old) × (at + 8 ≤ length zm.old) × (sum_of n < 65535) }
    ensures { Runs (λ j. at + j) (steady_of i) (steady_of z) 8 im zm (sum_of n) (sum_of result) }
{
    let deep = read_eight(at, zm);
    let stood = read_eight(at, im);
    let depths = pick_eight(z, deep, z, deep);
    let numbers = pick_eight(z, deep, i, stood);
    write_eight(at, depths, zm);
    write_eight(at, numbers, im);
    count_eight(z, deep, n)
}

// Eight pixels or more that lie side by side. The last eight begin before the end of those in front of them where count is no multiple of eight: a pixel
// that is drawn again is not nearer.
fn draw_many(run: Run, im: &mut [u16], zm: &mut [u16]) -> u64
    requires { (8 ≤ run.count) × (Fits run (length im.old) (length zm.old)) × (Stays run.i) × (Stays run.z) }
    ensures { Runs (λ j. run.base + j) run.i run.z run.count im zm 0 result }
{
    let i = whole(run.i.first);
    let z = whole(run.z.first);
    let all = run.count as usize;
    let last = all - 8;
    let mut n = [0; 8];
    for k in 0..all.div_ceil(8) {
        // The answer has a name of its own first: the check does not follow an array that a call's answer is laid in.
        let counted = draw_eight(run.base + (8 * k).min(last), i, z, im, zm, n);
        n = counted;
    }
    sum_eight(n) as u64
}

// Pixels that lie side by side. Fewer than eight are drawn one after the other; the others otherwise than `draw_beside` does, since all numbers are one.
fn draw_same(run: Run, im: &mut [u16], zm: &mut [u16]) -> u64
    requires { (Fits run (length im.old) (length zm.old)) × (Stays run.i) × (Stays run.z) }
    ensures { Runs (λ j. run.base + j) run.i run.z run.count im zm 0 result }
{
    if run.count < 8 {
        return draw_run(run, im, zm);
    }
    draw_many(run, im, zm)
}

// The pixels of row y from column lo up to and without hi, all with the same numbers, with the pen of which nothing but a nearer depth decides, over memories of
// rows or of a unit; over tiles none. It takes no `Stretch`, whose numbers may change along the row. Answers how many passed.
pub fn span_steady(frame: Frame, lo: u16, hi: u16, y: u16, i: u16, z: u16, m: &mut Memories) -> u64
    ensures { Draws (nearer_pen frame) (λ rows. steady_offers frame rows lo hi y i z) m 0 result }
{
    if lies_tiled(frame) {
        return 0;
    }
    let s = Stretch {
        lo,
        hi,
        y,
        i: Carried::steady(i),
        z: Carried::steady(z),
    };
    if let Some(part) = s.within(frame, m.i.len(), m.z.len()) {
        return draw_same(run_of(frame, part), m.i, m.z);
    }
    0
}
