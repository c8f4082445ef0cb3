// The edges of a triangle at a pixel.
ghost use Rattle.std.specs.Prelude.{◌≡◌, ◌+◌, ◌*◌, ◌%◌, ◌^◌, ◌≤◌};
ghost use Rattle.triangle.specs.Edge.{edge_at, closed, amount};
ghost use Rattle.triangle.specs.Loops.{edges_at};

use crate::{Corners, Edge, Edges};
use picture::Vertex;

// How far a is above b, modulo 2^64.
pub(crate) fn over(a: u16, b: u16) -> u64
    ensures { (result + b) % 2 ^ 64 ≡ a }
{
    (a as u64).wrapping_sub(b as u64)
}

// The edge from a to b at the pixel (x, y).
#[tactic(auto, unfolding(crate::specs::Edge::plus_of, crate::specs::Edge::minus_of))]
pub(crate) fn edge_at(a: Vertex, b: Vertex, x: u16, y: u16) -> Edge
    ensures { (result ≡ edge_at a b x y) × (result.plus ≤ 12884508675) × (result.minus ≤ 12884508675) }
{
    Edge {
        plus: b.x as u64 * y as u64 + a.x as u64 * b.y as u64 + a.y as u64 * x as u64,
        minus: b.x as u64 * a.y as u64 + a.x as u64 * y as u64 + b.y as u64 * x as u64,
    }
}

impl Corners {
    // The three edges at the pixel (x, y).
    pub(crate) fn edges_at(self, x: u16, y: u16) -> Edges
        ensures { result ≡ edges_at self x y }
    {
        Edges {
            ab: edge_at(self.a, self.b, x, y),
            bc: edge_at(self.b, self.c, x, y),
            ca: edge_at(self.c, self.a, x, y),
        }
    }
}

impl Edge {
    // The expression's amount, where it is not negative.
    pub(crate) fn amount(self) -> u64
        requires { self.minus ≤ self.plus }
        ensures { result ≡ amount self }
    {
        self.plus - self.minus
    }
}

// Whether the edge from a to b has the pixels on it: it runs downward, or level to the right.
pub(crate) fn is_closed(a: Vertex, b: Vertex) -> bool
    ensures { result ≡ closed a b }
{
    (b.y < a.y) | ((b.y == a.y) & (a.x < b.x))
}
