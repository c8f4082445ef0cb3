// Segments with a pen that stores whole numbers, where nothing hides a pixel but the window and the memory: no step asks about the pen, and none about
// window and memory where both ends are inside. The one loop is compiled once for each way and mode, which are types, so that what a step does is little.
ghost use Rattle.std.specs.Prelude.{◌≡◌, ◌<◌, ◌≤◌, true, length, if◌then◌else◌, nat_le};
ghost use Rattle.picture.specs.Picture.{is_deep, picture, step_at};
ghost use Rattle.picture.specs.Place.{rows_of};
ghost use Rattle.picture.specs.Lent.{Draws, DrawsApart, rows_over};
ghost use Rattle.line.specs.declared.Mode.{Mode};
ghost use Rattle.line.specs.declared.Mode.TheVariants.{Zero, One, Two};
ghost use Rattle.line.specs.Segment.{kind_of, step_offers, segment_offers};
ghost use Rattle.line.specs.Field.{is_bare};
ghost use Rattle.line.specs.Walk.{Reaches};
ghost use Rattle.line.specs.Route.{Goes, Sets, Traces, Begins};

use crate::pattern::ink_at;
use crate::route::{Asking, InRows, InShares, InTiles, Path, Route, Way, route_of};
use crate::slope::Slope;
use crate::walk::Step;
use crate::{Mode, Style};
use picture::{Memories, Pen};

// A mode as a type.
trait Lined {
    ghost MODE: { Mode };

    const MODE: Mode;
}

// Mode 0.
struct Grounded;

impl Lined for Grounded {
    ghost MODE = { Zero };

    const MODE: Mode = Mode::Zero;
}

// Mode 1.
struct Dashed;

impl Lined for Dashed {
    ghost MODE = { One };

    const MODE: Mode = Mode::One;
}

// Mode 2.
struct Shaded;

impl Lined for Shaded {
    ghost MODE = { Two };

    const MODE: Mode = Mode::Two;
}

// The number i where z is no farther than the depth that stands there, else the one that stood. It is reckoned and not chosen: of a choice of what memory
// has, LLVM makes a branch for x86-64, and which pixels pass no branch foretells.
fn pick_near(z: u16, old: u16, i: u16, stood: u16) -> u16
    ensures { result ≡ (if nat_le z old then i else stood) }
{
    let beyond = (old as u64).wrapping_sub(z as u64) >> 48;
    let back = stood.wrapping_sub(i) & (beyond as u16);
    i.wrapping_add(back)
}

// One offer at a place. One that does not pass stores what stands there, so that nothing branches.
fn put_bare(pen: Pen, mode: Mode, at: usize, i: u16, z: u16, im: &mut [u16], zm: &mut [u16]) -> u64
    requires { (is_bare pen (kind_of mode) ≡ true) × (at < length im.old) × (at < length zm.old) }
    ensures { picture im.new zm.new result ≡ step_at pen (kind_of mode) at i z (picture im.old zm.old 0) }
{
    if mode.is_deep() {
        let old = zm[at];
        let stood = im[at];
        let passes = z <= old;
        zm[at] = z.min(old);
        im[at] = pick_near(z, old, i, stood);
        return passes as u64;
    }
    im[at] = i;
    1
}

// Draws the step where a walk stands.
fn put_spot<P: Path, M: Lined>(
    pen: Pen,
    style: Style,
    route: Route,
    step: Step,
    im: &mut [u16],
    zm: &mut [u16],
) -> u64
    requires { Traces pen (rows_of pen.frame (length im.old) (length zm.old)) style M.MODE P.WAY route × Reaches style (is_deep (kind_of style.mode)) route.slope route.slope.a route.slope.b step }
    ensures { (DrawsApart pen (λ rows. step_offers pen rows style style.mode route.slope.a route.slope.b step.k) im zm 0 result) × (result ≤ 1) }
{
    let at = route.spot_of(step);
    if route.is_here(pen, P::WAY, at) {
        let ink = ink_at(style, M::MODE, step);
        if ink.drawn {
            let place = route.place_at(pen.frame, P::WAY, at);
            return put_bare(pen, M::MODE, place, ink.i, ink.z, im, zm);
        }
    }
    0
}

// Draws a segment from its first step on. The loop takes the two memories each by itself: of a struct, LLVM would read where they lie again at each step.
fn trace<P: Path, M: Lined>(
    pen: Pen,
    style: Style,
    route: Route,
    first: Step,
    im: &mut [u16],
    zm: &mut [u16],
) -> u64
    requires { Traces pen (rows_of pen.frame (length im.old) (length zm.old)) style M.MODE P.WAY route × Begins style route first }
    ensures { DrawsApart pen (λ rows. segment_offers pen rows style route.slope.a route.slope.b) im zm 0 result }
{
    let last = route.slope.n as u64;
    let mut step = first;
    let mut passed: u64 = 0;
    // A while: an iterator of steps would hold the walk and its proof beside this loop, and is no plainer, since the place of a step says which is next.
    while step.k <= last {
        let at = route.spot_of(step);
        passed += put_spot::<P, M>(pen, style, route, step, im, zm);
        step = route.onward(P::WAY, at, step);
    }
    passed
}

// Draws a segment in a way, by its mode.
fn traced<P: Path>(pen: Pen, style: Style, route: Route, first: Step, m: &mut Memories) -> u64
    requires { Sets pen (rows_over pen.frame m.old) style P.WAY route first }
    ensures { Draws pen (λ rows. segment_offers pen rows style route.slope.a route.slope.b) m 0 result }
{
    match style.mode {
        Mode::Zero => trace::<P, Grounded>(pen, style, route, first, m.i, m.z),
        Mode::One => trace::<P, Dashed>(pen, style, route, first, m.i, m.z),
        Mode::Two => trace::<P, Shaded>(pen, style, route, first, m.i, m.z),
    }
}

// Draws a segment in its way.
pub(crate) fn drawn_bare(
    pen: Pen,
    style: Style,
    rows: usize,
    way: Way,
    slope: Slope,
    m: &mut Memories,
) -> u64
    requires { (rows ≡ rows_over pen.frame m.old) × Goes pen rows style way slope.a slope.b }
    ensures { Draws pen (λ rows. segment_offers pen rows style slope.a slope.b) m 0 result }
{
    let route = route_of(pen.frame, rows, way, style.mode.is_deep(), slope);
    let first = route.near.begin(style.is_joined());
    match way {
        Way::Rows => traced::<InRows>(pen, style, route, first, m),
        Way::Tiles => traced::<InTiles>(pen, style, route, first, m),
        Way::Shares => traced::<InShares>(pen, style, route, first, m),
        Way::Asked => traced::<Asking>(pen, style, route, first, m),
    }
}
