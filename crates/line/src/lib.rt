// Line segments. specs/Segment.antt says which pixels a segment has and what is offered of them.
#![tactic(auto)]

ghost use Rattle.std.specs.Prelude.{◌≡◌, ◌/◌, if◌then◌else◌};
ghost use Rattle.picture.specs.Picture.{is_deep};
ghost use Rattle.line.specs.Segment.{mode_of, kind_of, is_set, larger, segment_offers};
ghost use Rattle.line.specs.Ink.{has_ground, joined_in};
ghost use Rattle.picture.specs.Lent.{Draws};

use crate::anywhere::drawn_anywhere;
use crate::field::{has_ends, is_bare, is_open};
use crate::route::way_of;
use crate::slope::Slope;
use crate::trace::drawn_bare;
use picture::place::{lies_plain, rows_of};
use picture::{Kind, Memories, Pen, Vertex};

mod anywhere;
mod course;
mod field;
mod part;
mod pattern;
mod route;
mod slope;
mod trace;
mod walk;

// The line modes 0, 1 and 2.
#[derive(Clone, Copy, Debug, PartialEq, Eq)]
pub enum Mode {
    Zero,
    One,
    Two,
}

// The line mode that a number names: 0, 1, and 2 for every other.
impl From<u16> for Mode {
    ghost from_gives = { λ number mode. mode ≡ mode_of number };

    fn from(number: u16) -> Mode {
        match number {
            0 => Mode::Zero,
            1 => Mode::One,
            _ => Mode::Two,
        }
    }
}

// The kind of a line's pixels.
impl From<Mode> for Kind {
    ghost from_gives = { λ mode kind. kind ≡ kind_of mode };

    fn from(mode: Mode) -> Kind {
        match mode {
            Mode::Zero => Kind::Line0,
            Mode::One => Kind::Line1,
            Mode::Two => Kind::Line2,
        }
    }
}

impl Mode {
    // Whether lines of this mode have depths: what the contract says is the definition that kinds have. A call of `Kind`'s method would stand in the place
    // of one comparison, no plainer.
    pub(crate) fn is_deep(self) -> bool
        ensures { result ≡ is_deep (kind_of self) }
    {
        matches!(self, Mode::Two)
    }

    // Whether a step is drawn whose pattern bit is clear.
    pub(crate) fn has_ground(self) -> bool
        ensures { result ≡ has_ground self }
    {
        !matches!(self, Mode::One)
    }
}

// What the modes say of lines, and what the line says of its next segment: how many steps it has made, and whether the segment leaves out its
// first point, which the one before it drew. All but the mode serves the modes 0 and 1. No field is there for `joined` alone, so it is a `bool` and no `Option`.
#[derive(Clone, Copy, Debug, PartialEq, Eq)]
pub struct Style {
    pub mode: Mode,
    pub pattern: u32,
    pub foreground: u16,
    pub background: u16,
    pub steps: u16,
    pub joined: bool,
}

// How many steps a segment has.
pub fn step_count(a: Vertex, b: Vertex) -> u16
    ensures { result ≡ larger a b }
{
    Slope::between(a, b).n
}

// Draws the segment from the earlier point a to the new endpoint b. Answers how many pixels passed.
pub fn segment(pen: Pen, style: Style, a: Vertex, b: Vertex, m: &mut Memories) -> u64
    ensures { Draws pen (λ rows. segment_offers pen rows style a b) m 0 result }
{
    let rows = rows_of(pen.frame, m.i.len(), m.z.len());
    let inside = has_ends(pen, rows, a, b);
    let bare = is_open(pen, style.mode) & is_bare(pen, style.mode);
    let slope = Slope::between(a, b);
    if bare & (inside | lies_plain(pen.frame)) {
        let way = way_of(pen.frame, inside);
        return drawn_bare(pen, style, rows, way, slope, m);
    }
    drawn_anywhere(pen, style, slope, m)
}
