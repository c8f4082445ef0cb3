// Where the steps of a segment are.
ghost use Rattle.std.specs.Prelude.{◌≡◌, ◌≤◌};
ghost use Rattle.line.specs.Segment.{distance, towards, larger, smaller, x_leads};

use picture::Vertex;

// The two points of a segment, which axis leads (level: x does), the larger distance n and the smaller distance m. All hold either way, so that `level` is a
// `bool` and no `Option`: no plainer would it be as an enum of the axes, since the definitions ask `x_leads`, a truth value.
#[derive(Clone, Copy)]
pub(crate) struct Slope {
    pub(crate) a: Vertex,
    pub(crate) b: Vertex,
    pub(crate) level: bool,
    pub(crate) n: u16,
    pub(crate) m: u16,
    ghost leads: { x_leads a b ≡ level },
    ghost longer: { larger a b ≡ n },
    ghost shorter: { smaller a b ≡ m },
}

// A pixel.
#[derive(Clone, Copy)]
pub(crate) struct Pixel {
    pub(crate) x: u16,
    pub(crate) y: u16,
}

// So far from one number towards another.
fn moved(from: u16, to: u16, far: u16) -> u16
    requires { far ≤ distance from to }
    ensures { result ≡ towards from to far }
{
    if from <= to { from + far } else { from - far }
}

impl Slope {
    ghost use Rattle.line.specs.Segment.{side_at};
    ghost use Rattle.line.specs.Step.{slope_of, step_pixel};

    // The slope of the segment from a to b.
    pub(crate) fn between(a: Vertex, b: Vertex) -> Slope
        ensures { result ≡ slope_of a b }
    {
        let dx = a.x.abs_diff(b.x);
        let dy = a.y.abs_diff(b.y);
        let level = dy <= dx;
        Slope {
            a,
            b,
            level,
            n: dx.max(dy),
            m: dx.min(dy),
        }
    }

    // The pixel of step k, which moves so far to the side.
    pub(crate) fn pixel_of(self, k: u64, side: u16) -> Pixel
        requires { (k ≤ self.n) × (side ≡ side_at self.n self.m k) }
        ensures { result ≡ step_pixel self.a self.b k }
    {
        let lead = k as u16;
        if self.level {
            return Pixel {
                x: moved(self.a.x, self.b.x, lead),
                y: moved(self.a.y, self.b.y, side),
            };
        }
        Pixel {
            x: moved(self.a.x, self.b.x, side),
            y: moved(self.a.y, self.b.y, lead),
        }
    }
}
