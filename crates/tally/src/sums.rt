// Counts and tallies, added up modulo 2^64: any two can be. What recordings come to is far below (`small` in specs/Overdraw.antt).
ghost use Rattle.std.specs.Prelude.{◌≡◌};
ghost use Rattle.tally.specs.Tally.{no_count, together, kept_count, no_tally, only_of, added, kept};

use crate::{Count, Tally};
use picture::Kind;

impl Count {
    // Nothing.
    pub(crate) fn none() -> Self
        ensures { result ≡ no_count }
    {
        Count {
            figures: 0,
            offered: 0,
            passed: 0,
            hidden: 0,
        }
    }

    // Two counts together.
    fn with(self, other: Count) -> Self
        ensures { result ≡ kept_count (together self other) }
    {
        Count {
            figures: self.figures.wrapping_add(other.figures),
            offered: self.offered.wrapping_add(other.offered),
            passed: self.passed.wrapping_add(other.passed),
            hidden: self.hidden.wrapping_add(other.hidden),
        }
    }
}

impl Tally {
    // Nothing of any kind.
    pub fn none() -> Self
        ensures { result ≡ no_tally }
    {
        let none = Count::none();
        Tally {
            gouraud: none,
            constant: none,
            line0: none,
            line1: none,
            line2: none,
        }
    }

    // A count of one kind, and none of the others.
    pub(crate) fn only(kind: Kind, count: Count) -> Self
        ensures { result ≡ only_of kind count }
    {
        let none = Tally::none();
        match kind {
            Kind::Gouraud => Tally {
                gouraud: count,
                ..none
            },
            Kind::Constant => Tally {
                constant: count,
                ..none
            },
            Kind::Line0 => Tally {
                line0: count,
                ..none
            },
            Kind::Line1 => Tally {
                line1: count,
                ..none
            },
            Kind::Line2 => Tally {
                line2: count,
                ..none
            },
        }
    }

    // Two tallies, kind by kind.
    pub fn with(self, other: Tally) -> Self
        ensures { result ≡ kept (added self other) }
    {
        Tally {
            gouraud: self.gouraud.with(other.gouraud),
            constant: self.constant.with(other.constant),
            line0: self.line0.with(other.line0),
            line1: self.line1.with(other.line1),
            line2: self.line2.with(other.line2),
        }
    }
}
