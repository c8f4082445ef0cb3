// Open figures: what a vertex makes of them, and what it completes.
ghost use Rattle.std.specs.Prelude.{◌≡◌};
ghost use Rattle.registers.specs.Record.{opened, no_figure};
ghost use Rattle.registers.specs.Figure.{shape_of, shape_number, paired, advanced, grown_of, completes};

use crate::{Figure, PATTERN_LENGTH};
use line::step_count;
use picture::Vertex;

// The shapes of open figures, and none, in the order of the record's numbers. No Option stands around them, here and in the three enums like it (`Completed`, `Subcommand`
// and `Way`), so that a match has one layer.
#[derive(Clone, Copy)]
pub enum Shape {
    Closed,
    Strip,
    Fan,
    Line,
}

// The number of the last shape.
pub const LAST_SHAPE: u16 = Shape::Line as u16;

// What a word completes, as one match asks it (see `Shape`): nothing, a triangle of three vertices of which the last is new, or a visible segment to the new endpoint.
#[derive(Clone, Copy)]
pub enum Completed {
    Nothing,
    Triangle(Vertex, Vertex, Vertex),
    Segment(Vertex, Vertex),
}

// The shape that the record's number stands for.
impl From<u16> for Shape {
    ghost from_gives = { λ number shape. shape ≡ shape_of number };

    #[tactic(auto, unfolding(crate::specs::Figure::shape_of))]
    fn from(number: u16) -> Shape {
        match number {
            1 => Shape::Strip,
            2 => Shape::Fan,
            3 => Shape::Line,
            _ => Shape::Closed,
        }
    }
}

// No vertex.
const NO_VERTEX: Vertex = Vertex {
    x: 0,
    y: 0,
    i: 0,
    z: 0,
};

impl Figure {
    // No open figure.
    pub(crate) fn none() -> Self
        ensures { result ≡ no_figure }
    {
        Figure::open(Shape::Closed, NO_VERTEX)
    }

    // A figure with its first vertex.
    pub(crate) fn open(shape: Shape, first: Vertex) -> Self
        ensures { result ≡ opened (shape_number shape) first }
    {
        Figure {
            shape: shape as u16,
            pair: 0,
            first,
            second: NO_VERTEX,
            steps: 0,
            dashed: 0,
        }
    }

    // A figure with two vertices.
    fn pair(shape: Shape, first: Vertex, second: Vertex) -> Self
        ensures { result ≡ paired (shape_number shape) first second }
    {
        Figure {
            pair: 1,
            second,
            ..Figure::open(shape, first)
        }
    }

    // A line after the segment to a vertex, which was dashed or not.
    fn advanced(self, dashed: bool, v: Vertex) -> Self
        ensures { result ≡ advanced dashed self v }
    {
        let made = (u32::from(self.steps) + u32::from(step_count(self.first, v)))
            % u32::from(PATTERN_LENGTH);
        Figure {
            steps: made as u16,
            dashed: u16::from(dashed),
            ..Figure::open(Shape::Line, v)
        }
    }

    // The figure after one more vertex. With `end` a line closes; `dashed` tells of the segment to the vertex.
    #[tactic(auto, unfolding(crate::specs::Figure::grown_of))]
    pub(crate) fn grown(self, end: bool, dashed: bool, v: Vertex) -> Self
        ensures { result ≡ grown_of (shape_of self.shape) end dashed self v }
    {
        match Shape::from(self.shape) {
            Shape::Closed => self,
            Shape::Strip if self.pair == 1 => Figure::pair(Shape::Strip, self.second, v),
            Shape::Strip => Figure::pair(Shape::Strip, self.first, v),
            Shape::Fan => Figure::pair(Shape::Fan, self.first, v),
            Shape::Line if end => Figure::none(),
            Shape::Line => self.advanced(dashed, v),
        }
    }

    // What one more vertex completes. With `inv` a segment is invisible.
    #[tactic(auto, unfolding(crate::specs::Figure::completes))]
    pub(crate) fn completed(self, inv: bool, v: Vertex) -> Completed
        ensures { result ≡ completes (shape_of self.shape) inv self v }
    {
        match Shape::from(self.shape) {
            Shape::Strip | Shape::Fan if self.pair == 1 => Completed::Triangle(
                self.first,
                self.second,
                v,
            ),
            Shape::Line if !inv => Completed::Segment(self.first, v),
            Shape::Closed | Shape::Strip | Shape::Fan | Shape::Line => Completed::Nothing,
        }
    }
}
