// What part of the whole picture a unit of a board has: of the places that the picture has in rows, those whose remainder by the number of units is
// its own. The quotient is their place in the unit's memory.
ghost use Rattle.std.specs.Prelude.{◌≡◌};
ghost use Rattle.line.specs.Part.{part_of, has_place};

use picture::Frame;

// A unit's remainder, the mask that takes a place's remainder, and the shift that leaves its quotient.
#[derive(Clone, Copy)]
pub(crate) struct Part {
    pub(crate) shift: u32,
    pub(crate) mask: usize,
    pub(crate) unit: usize,
}

impl Part {
    // Whether a place of the whole picture is one of the unit's.
    pub(crate) fn has_place(self, at: usize) -> bool
        ensures { result ≡ has_place self at }
    {
        at & self.mask == self.unit
    }
}

// The part of a unit, where pixels lie neither in rows nor in tiles.
pub(crate) fn part_of(frame: Frame) -> Part
    ensures { result ≡ part_of frame }
{
    let layout = frame.layout as usize;
    if frame.layout < 4 {
        return Part {
            shift: 1,
            mask: 1,
            unit: layout & 1,
        };
    }
    Part {
        shift: 2,
        mask: 3,
        unit: layout & 3,
    }
}
