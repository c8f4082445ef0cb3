// Triangles drawn: row by row, each row's covered pixels as one stretch.
ghost use Rattle.std.specs.Prelude.{◌≡◌, ◌+◌, ◌<◌, ◌≤◌, true, false, length, if◌then◌else◌, nat_lt};
ghost use Rattle.triangle.specs.Edge.{covers};
ghost use Rattle.triangle.specs.Loops.{end_of, start_of, Lowest, lowest_first, Crossed, Flanked, Ranges, Spanned, Carries, LeansBoth, Shaded};
ghost use Rattle.triangle.specs.Loops.{Told, Serves, InRows, Rises, Steady, Drawable, Large};
ghost use Rattle.triangle.specs.Offers.{kind_of, pixel_offers, row_offers, turned_offers, corners_of, triangle_offers};
ghost use Rattle.picture.specs.Lent.{Draws};

use crate::cover::edge_at;
use crate::{Brush, Corners, Edge, Facet, Flanks, MOST_CARRIED, Rising, Shades, Slopes, Span};
use picture::draw::{put, span};
use picture::nearer::{is_plain, span_nearer};
use picture::place::{lies_tiled, rows_of};
use picture::steady::span_steady;
use picture::{Carried, Kind, Memories, Pen, Stretch, Vertex};

// A row of a constant triangle.
fn flat_run(pen: Pen, corners: Corners, span: Span, y: u16) -> Stretch
    requires { Spanned pen corners y span.lo span.hi }
    ensures { Told pen true corners y result }
{
    Stretch {
        lo: span.lo as u16,
        hi: span.hi as u16,
        y,
        i: Carried::steady(corners.last.i),
        z: Carried::steady(corners.last.z),
    }
}

// A row of a Gouraud triangle, its numbers carried.
fn carried_run(
    pen: Pen,
    facet: Facet,
    slopes: Slopes,
    rising: Rising,
    span: Span,
    y: u16,
) -> Stretch
    requires { (Carries facet.corners slopes) × (Rises facet.corners y rising) × (Spanned pen facet.corners y span.lo span.hi) }
    ensures { Told pen false facet.corners y result }
{
    Stretch {
        lo: span.lo as u16,
        hi: span.hi as u16,
        y,
        i: Carried {
            first: slopes.begin(facet.area, rising.i.at_column(span.lo)),
            add: slopes.i,
        },
        z: Carried {
            first: slopes.begin(facet.area, rising.z.at_column(span.lo)),
            add: slopes.z,
        },
    }
}

// A row with covered pixels as one stretch, or none where each pixel is drawn by itself.
fn run_of(
    brush: Brush,
    facet: Facet,
    shades: Shades,
    rising: Rising,
    span: Span,
    y: u16,
) -> Option<Stretch>
    requires { (Shaded brush.constant facet.corners shades) × (Rises facet.corners y rising) × (Spanned brush.pen facet.corners y span.lo span.hi) }
    ensures { Serves brush.pen brush.constant facet.corners y result }
{
    match shades {
        Shades::Flat => Some(flat_run(brush.pen, facet.corners, span, y)),
        Shades::Carried(slopes) => Some(carried_run(brush.pen, facet, slopes, rising, span, y)),
        Shades::Divided => None,
    }
}

// The kind of a triangle's pixels. No `From`: a bool by itself says nothing of triangles.
pub fn kind_of(constant: bool) -> Kind
    ensures { result ≡ kind_of constant }
{
    if constant {
        Kind::Constant
    } else {
        Kind::Gouraud
    }
}

// A row drawn as one stretch. Gouraud rows, and constant ones over tiles, share the one call of `span_nearer` for pens of which nothing but a nearer depth decides,
// and all rows the one of `span` for others: called once, it is compiled in place, and the numbers stay in registers.
fn run_row(brush: Brush, corners: Corners, run: Stretch, m: &mut Memories) -> u64
    requires { (Told brush.pen brush.constant corners run.y run) × (InRows brush.pen run.y) }
    ensures { Draws brush.pen (λ rows. row_offers brush.pen rows brush.constant corners run.y) m 0 result }
{
    if brush.plain {
        return span_nearer(brush.pen.frame, run, m);
    }
    span(brush.pen, kind_of(brush.constant), run, m)
}

// One covered pixel of a Gouraud triangle.
fn divided_pixel(pen: Pen, facet: Facet, x: u16, y: u16, m: &mut Memories) -> u64
    requires { (covers facet.corners x y ≡ true) × (Large facet.corners) }
    ensures { Draws pen (λ rows. pixel_offers pen rows false facet.corners x y) m 0 result }
{
    let edges = facet.corners.edges_at(x, y);
    let pixel = Vertex {
        x,
        y,
        i: facet.number(edges, facet.corners.intensities()),
        z: facet.number(edges, facet.corners.depths()),
    };
    put(pen, Kind::Gouraud, pixel, m)
}

// A row of a Gouraud triangle that is too large for carried numbers (doubled area above 2^31): two divisions a pixel. No word that the chip
// accepts completes one.
fn divided_row(pen: Pen, facet: Facet, span: Span, y: u16, m: &mut Memories) -> u64
    requires { (Spanned pen facet.corners y span.lo span.hi) × (InRows pen y) × (Large facet.corners) }
    ensures { Draws pen (λ rows. row_offers pen rows false facet.corners y) m 0 result }
{
    let mut passed: u64 = 0;
    for x in span.lo..span.hi {
        passed += divided_pixel(pen, facet, x as u16, y, m);
    }
    passed
}

// A row of a triangle.
fn draw_row(
    brush: Brush,
    facet: Facet,
    shades: Shades,
    rising: Rising,
    y: u16,
    m: &mut Memories,
) -> u64
    requires { Drawable brush.pen brush.constant facet.corners shades rising y }
    ensures { Draws brush.pen (λ rows. row_offers brush.pen rows brush.constant facet.corners y) m 0 result }
{
    match rising.flanks.spanned(brush.pen, facet.corners, y) {
        Some(span) => match run_of(brush, facet, shades, rising, span, y) {
            Some(run) => run_row(brush, facet.corners, run, m),
            None => divided_row(brush.pen, facet, span, y, m),
        },
        None => 0,
    }
}

// How the numbers of a triangle come to its pixels, by what a pixel to the right adds to the sums of I and Z.
fn shades_of(constant: bool, facet: Facet, rising: Rising) -> Shades
    requires { LeansBoth facet.corners rising.i.right rising.z.right }
    ensures { Shaded constant facet.corners result }
{
    if constant {
        return Shades::Flat;
    }
    if facet.area <= MOST_CARRIED {
        return Shades::Carried(facet.slopes(rising));
    }
    Shades::Divided
}

impl Rising {
    // What is carried from row to row, in row y.
    fn new(facet: Facet, flanks: Flanks, y: u16) -> Rising
        requires { Flanked facet.corners y flanks }
        ensures { Rises facet.corners y result }
    {
        Rising {
            flanks,
            i: facet.sum(facet.corners.intensities(), y),
            z: facet.sum(facet.corners.depths(), y),
        }
    }

    // The same a row on.
    fn raised(self, corners: Corners, y: u16) -> Rising
        requires { Rises corners y self }
        ensures { Rises corners (y + 1) result }
    {
        Rising {
            flanks: self.flanks.raised(corners, y),
            i: self.i.raised(),
            z: self.z.raised(),
        }
    }
}

// The first row of the corners and the window.
fn start_of(limit: u16, corners: Corners) -> u16
    ensures { result ≡ start_of limit corners.a.y corners.c.y corners.b.y }
{
    limit.max(corners.a.y.min(corners.c.y.min(corners.b.y)))
}

// One past the last row of the corners, the window and the memory.
fn end_of(size: usize, limit: u16, corners: Corners) -> usize
    ensures { result ≡ end_of size limit corners.a.y corners.c.y corners.b.y }
{
    let last = limit.min(corners.a.y.max(corners.c.y.max(corners.b.y)));
    size.min(last as usize + 1)
}

// A row of a constant triangle, with a pen of which nothing but a nearer depth decides, where pixels lie in no tiles.
fn flat_row(pen: Pen, corners: Corners, flanks: Flanks, y: u16, m: &mut Memories) -> u64
    requires { (Steady pen) × (Crossed corners y) × (Flanked corners y flanks) × (InRows pen y) }
    ensures { Draws pen (λ rows. row_offers pen rows true corners y) m 0 result }
{
    match flanks.spanned(pen, corners, y) {
        Some(span) => span_steady(
            pen.frame,
            span.lo as u16,
            span.hi as u16,
            y,
            corners.last.i,
            corners.last.z,
            m,
        ),
        None => 0,
    }
}

// The rows from `first` up to and without `top` of such a triangle. They carry no sums, so they have a loop of their own.
fn draw_flat(
    pen: Pen,
    corners: Corners,
    mut flanks: Flanks,
    first: u16,
    top: u16,
    m: &mut Memories,
) -> u64
    requires { (Steady pen) × (Ranges pen corners flanks first top (length m.old.i.now) (length m.old.z.now)) }
    ensures { Draws pen (λ rows. turned_offers pen rows true corners) m 0 result }
{
    let mut passed: u64 = 0;
    for y in first..top {
        passed += flat_row(pen, corners, flanks, y, m);
        flanks = flanks.raised(corners, y);
    }
    passed
}

// The rows from `first` up to and without `top` of any triangle.
fn draw_shaded(
    brush: Brush,
    facet: Facet,
    flanks: Flanks,
    first: u16,
    top: u16,
    m: &mut Memories,
) -> u64
    requires { Ranges brush.pen facet.corners flanks first top (length m.old.i.now) (length m.old.z.now) }
    ensures { Draws brush.pen (λ rows. turned_offers brush.pen rows brush.constant facet.corners) m 0 result }
{
    let mut rising = Rising::new(facet, flanks, first);
    let shades = shades_of(brush.constant, facet, rising);
    let mut passed: u64 = 0;
    for y in first..top {
        passed += draw_row(brush, facet, shades, rising, y, m);
        rising = rising.raised(facet.corners, y);
    }
    passed
}

// A triangle whose corners turn anticlockwise, the lowest first.
fn draw_lowest(pen: Pen, constant: bool, facet: Facet, m: &mut Memories) -> u64
    requires { Lowest facet.corners }
    ensures { Draws pen (λ rows. turned_offers pen rows constant facet.corners) m 0 result }
{
    let rows = rows_of(pen.frame, m.i.len(), m.z.len());
    let top = end_of(rows, pen.top, facet.corners) as u16;
    let first = start_of(pen.bottom, facet.corners).min(top);
    let flanks = Flanks::new(facet.corners, first);
    let plain = is_plain(pen, kind_of(constant));
    if constant & plain & !lies_tiled(pen.frame) {
        return draw_flat(pen, facet.corners, flanks, first, top, m);
    }
    let brush = Brush {
        pen,
        constant,
        plain,
    };
    draw_shaded(brush, facet, flanks, first, top, m)
}

// A triangle whose corners turn anticlockwise.
fn draw_turned(pen: Pen, constant: bool, facet: Facet, m: &mut Memories) -> u64
    ensures { Draws pen (λ rows. turned_offers pen rows constant facet.corners) m 0 result }
{
    let lowest = Facet {
        corners: facet.corners.lowest_first(),
        area: facet.area,
    };
    draw_lowest(pen, constant, lowest, m)
}

// The corners named so that they turn anticlockwise, by the expression of the first edge at the third corner.
fn named(a: Vertex, b: Vertex, c: Vertex, edge: Edge) -> Corners
    ensures { result ≡ (if nat_lt edge.minus edge.plus then corners_of a b c c else corners_of a c b c) }
{
    if edge.minus < edge.plus {
        return Corners { a, b, c, last: c };
    }
    Corners {
        a,
        b: c,
        c: b,
        last: c,
    }
}

impl Corners {
    // The corners in the same turn, with the lowest first.
    fn lowest_first(self) -> Corners
        ensures { result ≡ lowest_first self }
    {
        if self.b.y < self.a.y.min(self.c.y) {
            return Corners {
                a: self.b,
                b: self.c,
                c: self.a,
                ..self
            };
        }
        if self.c.y < self.a.y {
            return Corners {
                a: self.c,
                b: self.a,
                c: self.b,
                ..self
            };
        }
        self
    }
}

// The triangle that vertex c completes. Answers how many pixels passed. Both turning senses share the one call of `draw_turned`: so it is
// compiled in place.
pub fn triangle(pen: Pen, constant: bool, a: Vertex, b: Vertex, c: Vertex, m: &mut Memories) -> u64
    ensures { Draws pen (λ rows. triangle_offers pen rows constant a b c) m 0 result }
{
    let edge = edge_at(a, b, c.x, c.y);
    let area = edge.plus.abs_diff(edge.minus);
    if 0 < area {
        let facet = Facet {
            corners: named(a, b, c, edge),
            area,
        };
        return draw_turned(pen, constant, facet, m);
    }
    0
}
