// The covered columns of a row. What an edge keeps of it is told by one number, which is carried from row to row, and by a product with the edge's
// reciprocal: no row divides.
ghost use Rattle.picture.specs.Draw.{carried_one};
ghost use Rattle.std.specs.Prelude.{◌≡◌, ◌+◌, ◌*◌, ◌/◌, ◌<◌, ◌≤◌};
ghost use Rattle.triangle.specs.Edge.{closed};
ghost use Rattle.triangle.specs.Loops.{short, Measures, Stands, Bounds, raised_of, Crosses, Cuts, CutsAll, Spanned};
ghost use Rattle.triangle.specs.Loops.{Crossed, turn_of, taken_of, Flanked};
ghost use Rattle.triangle.specs.Spans.{Finds};

use crate::cover::{edge_at, is_closed, over};
use crate::{Corners, Flanks, HALF, Height, Limits, Side, Span};
use picture::{CARRIED_ONE, Pen, Vertex};

// What an edge must exceed the other side by.
fn short_of(a: Vertex, b: Vertex) -> u64
    ensures { (result ≡ short (closed a b)) × (result ≤ 1) }
{
    u64::from(!is_closed(a, b))
}

// 2^48 over an edge's height, and a little more. An edge without height has no quotient, and its divisor is 1.
fn inverse(tall: u64) -> u64
    ensures { 0 < tall → (carried_one ≤ result * tall) × (result * tall ≤ carried_one + tall) }
{
    CARRIED_ONE / tall.max(1) + 1
}

impl Height {
    // The height of the edge from a to b, with its reciprocal.
    fn new(a: Vertex, b: Vertex) -> Height
        ensures { Measures a b result }
    {
        let tall = a.y.abs_diff(b.y) as u64;
        Height {
            tall,
            inverse: inverse(tall),
        }
    }
}

impl Side {
    // The edge from a to b in row y.
    fn new(a: Vertex, b: Vertex, y: u16) -> Side
        ensures { Stands a b y result }
    {
        let edge = edge_at(a, b, 0, y);
        let minus = edge.minus + short_of(a, b);
        let height = Height::new(a, b);
        if b.y < a.y {
            return Side {
                at: (minus + height.tall).wrapping_sub(edge.plus + 1),
                step: over(a.x, b.x),
                height,
            };
        }
        Side {
            at: (edge.plus + height.tall).wrapping_sub(minus),
            step: over(b.x, a.x),
            height,
        }
    }

    // The same edge a row on.
    fn raised(self) -> Side
        ensures { result ≡ raised_of self }
    {
        Side {
            at: self.at.wrapping_add(self.step),
            ..self
        }
    }

    // The column at which an edge bounds a row between its ends.
    fn crossing(self) -> u64
        requires { Crosses self }
        ensures { result ≡ self.at / self.height.tall }
    {
        self.at * self.height.inverse / CARRIED_ONE
    }

    // The first column that the edge from a to b keeps of row y, where it bounds from the left, and one past the last, where it bounds from the right. No
    // picture has columns from 65,536 on. A number from `HALF` on stands for one below 0.
    fn bound(self, a: Vertex, b: Vertex, y: u16) -> u64
        requires { Stands a b y self }
        ensures { Bounds a b y result }
    {
        if self.at < 65536 * self.height.tall {
            return self.crossing();
        }
        if HALF <= self.at {
            return 0;
        }
        65536
    }

    // What the edge from a to b keeps of columns of row y.
    fn cut(self, a: Vertex, b: Vertex, y: u16, columns: Limits) -> Limits
        requires { (Stands a b y self) × (columns.hi ≤ 65536) }
        ensures { Cuts a b y columns result }
    {
        let limit = self.bound(a, b, y);
        if b.y < a.y {
            return Limits {
                lo: columns.lo.max(limit),
                ..columns
            };
        }
        Limits {
            hi: columns.hi.min(limit),
            ..columns
        }
    }
}

impl Flanks {
    // The edges that bound row y. One that has ended has given its place to the third.
    pub(crate) fn new(corners: Corners, y: u16) -> Flanks
        ensures { Flanked corners y result }
    {
        let turn = corners.b.y.min(corners.c.y);
        let flanks = Flanks {
            left: Side::new(corners.c, corners.a, y),
            right: Side::new(corners.a, corners.b, y),
            third: Side::new(corners.b, corners.c, y.max(turn)),
            turn,
        };
        if turn < y {
            return flanks.taken(corners);
        }
        flanks
    }

    // The third edge in the place of the one that ends: where it falls it bounds from the left.
    fn taken(self, corners: Corners) -> Flanks
        ensures { result ≡ taken_of corners self }
    {
        if corners.c.y < corners.b.y {
            return Flanks {
                left: self.third,
                ..self
            };
        }
        Flanks {
            right: self.third,
            ..self
        }
    }

    // The edges that bound the row above row y. All three meet row `turn`, and above it the third has the place of the one that ends there.
    pub(crate) fn raised(self, corners: Corners, y: u16) -> Flanks
        requires { Flanked corners y self }
        ensures { Flanked corners (y + 1) result }
    {
        let flanks = if y == self.turn {
            self.taken(corners)
        } else {
            self
        };
        Flanks {
            left: flanks.left.raised(),
            right: flanks.right.raised(),
            ..flanks
        }
    }

    // What all three edges keep of columns of row y.
    fn cut_thrice(self, corners: Corners, y: u16, columns: Limits) -> Limits
        requires { (Flanked corners y self) × (y ≡ turn_of corners) × (columns.hi ≤ 65536) }
        ensures { CutsAll corners y columns result }
    {
        let first = self.left.cut(corners.c, corners.a, y, columns);
        let second = self.right.cut(corners.a, corners.b, y, first);
        self.third.cut(corners.b, corners.c, y, second)
    }

    // Where the covered columns of row y within the window and the memory begin and end. Of a row in which no edge ends two edges tell it: the third leaves nothing
    // outside that both keep.
    fn limits(self, pen: Pen, corners: Corners, y: u16) -> Limits
        requires { (Crossed corners y) × (Flanked corners y self) }
        ensures { Spanned pen corners y result.lo result.hi }
    {
        let lo = pen.left as u64;
        let hi = (pen.frame.line as u64).min(pen.right as u64 + 1);
        if y == self.turn {
            return self.cut_thrice(corners, y, Limits { lo, hi });
        }
        Limits {
            lo: lo.max(self.left.crossing()),
            hi: hi.min(self.right.crossing()),
        }
    }

    // The covered columns of row y within the window and the memory, or none.
    pub(crate) fn spanned(self, pen: Pen, corners: Corners, y: u16) -> Option<Span>
        requires { (Crossed corners y) × (Flanked corners y self) }
        ensures { Finds pen corners y result }
    {
        let Limits { lo, hi } = self.limits(pen, corners, y);
        if lo < hi {
            return Some(Span { lo, hi });
        }
        None
    }
}
