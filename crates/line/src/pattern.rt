// What a step is drawn with: the colours of the line's pattern in the modes 0 and 1, the numbers that are carried in mode 2.
ghost use Rattle.picture.specs.Draw.{carried_one};
ghost use Rattle.std.specs.Prelude.{◌≡◌, ◌/◌, if◌then◌else◌};
ghost use Rattle.line.specs.Segment.{is_set};
ghost use Rattle.line.specs.Ink.{ink_of, joined_in};

use crate::walk::Step;
use crate::{Mode, Style};
use picture::carry::whole;

// Whether a step is drawn, and its two numbers. An Option of the two was tried: a step of mode 0 over tiles then takes four instructions more (an eighth).
#[derive(Clone, Copy)]
pub(crate) struct Ink {
    pub(crate) drawn: bool,
    pub(crate) i: u16,
    pub(crate) z: u16,
}

impl Style {
    // Whether a segment leaves out its first point: one of mode 2 never does.
    pub(crate) fn is_joined(self) -> bool
        ensures { result ≡ joined_in self self.mode }
    {
        self.joined & !self.mode.is_deep()
    }

    // Whether the pattern bit of step k is set.
    fn is_set(self, k: u64) -> bool
        ensures { result ≡ is_set self k }
    {
        let position = (self.steps as u64 + k % 32) % 32;
        (self.pattern >> (31 - position)) & 1 == 1
    }

    // The colour of a step whose pattern bit is set or not.
    fn colour_of(self, set: bool) -> u16
        ensures { result ≡ (if set then self.foreground else self.background) }
    {
        if set {
            self.foreground
        } else {
            self.background
        }
    }
}

// What a step of a line of this mode is drawn with.
pub(crate) fn ink_at(style: Style, mode: Mode, step: Step) -> Ink
    ensures { result ≡ ink_of style mode (is_set style step.k) (step.i / carried_one) (step.z / carried_one) }
{
    if mode.is_deep() {
        return Ink {
            drawn: true,
            i: whole(step.i),
            z: whole(step.z),
        };
    }
    let set = style.is_set(step.k);
    Ink {
        drawn: set | mode.has_ground(),
        i: style.colour_of(set),
        z: 0,
    }
}
