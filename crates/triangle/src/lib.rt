// Triangles: which pixels three corners cover, with which numbers, and how they are drawn. specs/Edge.antt, Number.antt and Offers.antt
// are document 01's "Triangle"; specs/Loops.antt and Spans.antt are what the code leans on.
#![tactic(auto)]

mod cover;
pub mod draw;
mod number;
mod row;

ghost use Rattle.std.specs.Prelude.{◌≡◌, ◌<◌};
ghost use Rattle.picture.specs.Draw.{is_plain};
ghost use Rattle.triangle.specs.Offers.{kind_of};
ghost use Rattle.triangle.specs.Loops.{Sized};

use picture::{Pen, Vertex};

// From here on a number modulo 2^64 stands for one below 0: none that is not below 0 is so large.
pub(crate) const HALF: u64 = 1 << 63;

// The largest doubled area of corners whose sums are carried by a factor.
pub(crate) const MOST_FACTORED: u64 = 1 << 15;

// The largest doubled area of corners whose numbers are carried along their rows. Above it each pixel divides.
pub(crate) const MOST_CARRIED: u64 = 1 << 31;

// Three corners that turn anticlockwise, and the vertex that completed them.
#[derive(Clone, Copy)]
pub(crate) struct Corners {
    pub(crate) a: Vertex,
    pub(crate) b: Vertex,
    pub(crate) c: Vertex,
    pub(crate) last: Vertex,
}

// Three corners that turn anticlockwise, with their doubled area.
#[derive(Clone, Copy)]
pub(crate) struct Facet {
    pub(crate) corners: Corners,
    pub(crate) area: u64,
    ghost sized: { Sized corners area },
}

// A number of each corner: its column, its row, its intensity or its depth. No array: its fields have the corners' names.
#[derive(Clone, Copy)]
pub(crate) struct Numbers {
    pub(crate) a: u16,
    pub(crate) b: u16,
    pub(crate) c: u16,
}

// What a triangle is drawn with: the pen, whether it is constant, and whether nothing but a nearer depth decides. That is asked once a triangle.
#[derive(Clone, Copy)]
pub(crate) struct Brush {
    pub(crate) pen: Pen,
    pub(crate) constant: bool,
    pub(crate) plain: bool,
    ghost fast: { plain ≡ is_plain pen (kind_of constant) },
}

// An edge's expression at a pixel: plus less minus.
#[derive(Clone, Copy)]
pub(crate) struct Edge {
    pub(crate) plus: u64,
    pub(crate) minus: u64,
}

// The three edges of a triangle at a pixel.
#[derive(Clone, Copy)]
pub(crate) struct Edges {
    pub(crate) ab: Edge,
    pub(crate) bc: Edge,
    pub(crate) ca: Edge,
}

// What edges leave of a row: the columns from lo up to and without hi, and none where hi is not above lo, so that an edge cuts without asking. A `Span` is one that
// was asked.
#[derive(Clone, Copy)]
pub(crate) struct Limits {
    pub(crate) lo: u64,
    pub(crate) hi: u64,
}

// The columns of a row from lo up to and without hi, one and more. That they are its covered ones stands where they are passed (`Spanned`): it is said of a pen, of
// corners and of a row, and a field of this struct could name none of them.
#[derive(Clone, Copy)]
pub(crate) struct Span {
    pub(crate) lo: u64,
    pub(crate) hi: u64,
    ghost some: { lo < hi },
}

// An edge's height, and 2^48 over it and a little more.
#[derive(Clone, Copy)]
pub(crate) struct Height {
    pub(crate) tall: u64,
    pub(crate) inverse: u64,
}

// An edge in a row: a number that over the edge's height is the column at which it bounds the row, and what the next row adds to that number, both modulo 2^64,
// and the edge's height.
#[derive(Clone, Copy)]
pub(crate) struct Side {
    pub(crate) at: u64,
    pub(crate) step: u64,
    pub(crate) height: Height,
}

// 2 N + D at column 0 of a row, where N is the weighted sum of three corner numbers, and what a pixel to the right and a row up add to it, all modulo 2^64.
#[derive(Clone, Copy)]
pub(crate) struct Sum {
    pub(crate) at: u64,
    pub(crate) right: u64,
    pub(crate) up: u64,
}

// The two edges that bound a row from the left and from the right, and, up to row `turn`, the third as it stands in that row: above it, it takes the place of one of
// them.
#[derive(Clone, Copy)]
pub(crate) struct Flanks {
    pub(crate) left: Side,
    pub(crate) right: Side,
    pub(crate) third: Side,
    pub(crate) turn: u16,
}

// What is carried from row to row: the edges, and the sums of I and Z. That they are those of a row stands where they are passed (`Flanked`, `Rises`): with the row in
// a field, the loops over rows would keep it twice.
#[derive(Clone, Copy)]
pub(crate) struct Rising {
    pub(crate) flanks: Flanks,
    pub(crate) i: Sum,
    pub(crate) z: Sum,
}

// How the numbers of a triangle are carried along its rows: the factor of a sum, or none for sums that want divisions in each row, and what
// a step to the right adds to I and to Z, modulo 2^64.
#[derive(Clone, Copy)]
pub(crate) struct Slopes {
    pub(crate) factor: Option<u64>,
    pub(crate) i: u64,
    pub(crate) z: u64,
}

// How the numbers of a triangle come to its pixels: the completing vertex's, carried along the rows, or by divisions. No `Option`: two of the three ways carry nothing.
#[derive(Clone, Copy)]
pub(crate) enum Shades {
    Flat,
    Carried(Slopes),
    Divided,
}
