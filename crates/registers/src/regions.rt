// Regions: the pixels of a picture, from the first corner towards the second, along x first.
ghost use Rattle.std.specs.Prelude.{◌≡◌};
ghost use Rattle.registers.specs.Record.{no_region, region_of};
ghost use Rattle.registers.specs.Region.{way_number, toward, next_pixel};

use crate::Region;

// The ways of a region, and none, in the order of the record's numbers. (`Shape` says why no Option stands around them.)
#[derive(Clone, Copy)]
pub enum Way {
    Shut,
    ToMemory,
    FromMemory,
}

// The number of the last way.
pub const LAST_WAY: u16 = Way::FromMemory as u16;

// One step from a coordinate towards another.
#[tactic(auto, unfolding(crate::specs::Region::toward))]
fn step_toward(a: u16, b: u16) -> u16
    ensures { result ≡ toward a b }
{
    if a < b { a + 1 } else { a.saturating_sub(1) }
}

impl Region {
    // No region.
    pub(crate) fn none() -> Self
        ensures { result ≡ no_region }
    {
        Region::open(Way::Shut, 0, 0, 0, 0)
    }

    // A region from its first corner to its second.
    pub(crate) fn open(way: Way, x0: u16, y0: u16, x1: u16, y1: u16) -> Self
        ensures { result ≡ region_of (way_number way) x0 y0 x1 y1 }
    {
        Region {
            way: way as u16,
            x0,
            x1,
            y1,
            x: x0,
            y: y0,
        }
    }

    // The region after a transfer: at its next pixel, or none after the last.
    #[tactic(auto, unfolding(crate::specs::Region::next_pixel))]
    pub(crate) fn onward(mut self) -> Self
        ensures { result ≡ next_pixel self }
    {
        if self.x != self.x1 {
            self.x = step_toward(self.x, self.x1);
            return self;
        }
        if self.y != self.y1 {
            self.x = self.x0;
            self.y = step_toward(self.y, self.y1);
            return self;
        }
        Region::none()
    }
}
