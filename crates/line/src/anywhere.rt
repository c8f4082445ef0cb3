// Segments with any pen, wherever they are and in any layout: each step asks whether its pixel is offered. What `trace` draws does not come here.
ghost use Rattle.std.specs.Prelude.{◌≡◌, ◌≤◌};
ghost use Rattle.picture.specs.Offer.{offer, keep};
ghost use Rattle.picture.specs.Picture.{is_deep};
ghost use Rattle.line.specs.Segment.{kind_of, step_offers, segment_offers};
ghost use Rattle.line.specs.Field.{direct_rows};
ghost use Rattle.line.specs.Walk.{Reaches};
ghost use Rattle.picture.specs.Lent.{Draws, rows_over};

use crate::Style;
use crate::field::{direct_rows, is_within};
use crate::pattern::ink_at;
use crate::slope::Slope;
use crate::walk::{Step, walk_of};
use picture::carry::whole;
use picture::draw::{put, put_placed};
use picture::place::place;
use picture::{Kind, Memories, Pen, Vertex};

// What `put` draws, with as little asked as the rows in use allow, where they are told. The loop stands here once, so that all of this is compiled into it. A
// trait with this match's two arms for its impls, as `trace` has for its ways, would be no plainer: here are no two loops to tell apart.
fn put_pixel(pen: Pen, kind: Kind, direct: Option<usize>, vertex: Vertex, m: &mut Memories) -> u64
    requires { direct ≡ direct_rows pen kind (rows_over pen.frame m.old) }
    ensures { Draws pen (λ rows. keep pen rows (offer kind vertex.x vertex.y vertex.i vertex.z)) m 0 result }
{
    let Some(rows) = direct else {
        return put(pen, kind, vertex, m);
    };
    if is_within(pen, rows, vertex.x, vertex.y) {
        let at = place(pen.frame, vertex.x, vertex.y);
        return put_placed(pen, kind, at, vertex.i, vertex.z, m);
    }
    0
}

// Draws the step where a walk stands.
fn put_step(
    pen: Pen,
    style: Style,
    direct: Option<usize>,
    slope: Slope,
    step: Step,
    m: &mut Memories,
) -> u64
    requires { Reaches style (is_deep (kind_of style.mode)) slope slope.a slope.b step × (direct ≡ direct_rows pen (kind_of style.mode) (rows_over pen.frame m.old)) }
    ensures { (Draws pen (λ rows. step_offers pen rows style style.mode slope.a slope.b step.k) m 0 result) × (result ≤ 1) }
{
    let ink = ink_at(style, style.mode, step);
    if ink.drawn {
        let pixel = slope.pixel_of(step.k, whole(step.side));
        let vertex = Vertex {
            x: pixel.x,
            y: pixel.y,
            i: ink.i,
            z: ink.z,
        };
        return put_pixel(pen, style.mode.into(), direct, vertex, m);
    }
    0
}

// Draws a segment.
pub(crate) fn drawn_anywhere(pen: Pen, style: Style, slope: Slope, m: &mut Memories) -> u64
    ensures { Draws pen (λ rows. segment_offers pen rows style slope.a slope.b) m 0 result }
{
    let last = slope.n as u64;
    let walk = walk_of(slope, style.mode.is_deep());
    let direct = direct_rows(pen, style.mode, m.i.len(), m.z.len());
    let mut step = walk.begin(style.is_joined());
    let mut passed: u64 = 0;
    // A while: an iterator of steps would need the walk's proof in its own next, and the sum of what they pass in this loop all the same; it is no plainer.
    while step.k <= last {
        passed += put_step(pen, style, direct, slope, step, m);
        step = walk.next(step);
    }
    passed
}
