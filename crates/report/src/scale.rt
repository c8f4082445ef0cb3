// The levels of a picture: the range of the numbers that are shown, each place's level in it, and up to where anything was drawn.
ghost use Rattle.std.specs.Prelude.{◌≡◌, length};
ghost use Rattle.report.specs.Levels.{is_fresh, chosen, widened, seen, range_of, base_of, level_of, level_at, levels, drawn_places};

use crate::place::number_at;

// The least and the greatest number that is shown.
#[derive(Clone, Copy)]
struct Range {
    low: u16,
    high: u16,
}

// Whether nothing was drawn at a place.
fn is_fresh(i: u16, z: u16) -> bool
    ensures { result ≡ is_fresh i z }
{
    i == 0 && z == 65535
}

// The number of a place that is shown. (`depth` is a bool here, in the calls below and in `to_levels`, as in the definitions that docs/CALLS.md names: `levels`, `chosen`.)
fn chosen_of(depth: bool, i: u16, z: u16) -> u16
    ensures { result ≡ chosen depth i z }
{
    if depth { z } else { i }
}

impl Range {
    // A range with one number more.
    fn wider(self, n: u16) -> Range
        ensures { result ≡ widened self n }
    {
        Range {
            low: self.low.min(n),
            high: self.high.max(n),
        }
    }

    // A range with one place more.
    #[tactic(auto, unfolding(crate::specs::Levels::seen))]
    fn with_place(self, depth: bool, i: u16, z: u16) -> Range
        ensures { result ≡ seen depth self i z }
    {
        if depth && is_fresh(i, z) {
            return self;
        }
        self.wider(chosen_of(depth, i, z))
    }

    // The number that shows as 0.
    #[tactic(auto, unfolding(crate::specs::Levels::base_of))]
    fn base(self) -> u16
        ensures { result ≡ base_of self }
    {
        if self.low == self.high { 0 } else { self.low }
    }

    // The level of a number.
    fn level(self, n: u16) -> u16
        ensures { result ≡ level_of self n }
    {
        let base = self.base();
        let span = self.high.saturating_sub(base) as u64;
        if span == 0 {
            return 0;
        }
        let share = n.min(self.high).saturating_sub(base) as u64;
        ((share * 255 + span / 2) / span) as u16
    }

    // The level of a place: black, where nothing was drawn.
    #[tactic(auto, unfolding(crate::specs::Levels::level_at))]
    fn level_at(self, depth: bool, i: u16, z: u16) -> u16
        ensures { result ≡ level_at depth self i z }
    {
        if is_fresh(i, z) {
            return 0;
        }
        self.level(chosen_of(depth, i, z))
    }
}

// From the least number that is shown to the greatest. (It begins above all numbers and below all, as `range_of` of specs/Levels.antt does, and not with no range.)
fn range_of(depth: bool, im: &[u16], zm: &[u16]) -> Range
    ensures { result ≡ range_of depth im.now zm.now (length im.now) }
{
    let mut range = Range {
        low: 65535,
        high: 0,
    };
    for (place, i) in im.iter().enumerate() {
        range = range.with_place(depth, *i, number_at(zm, place));
    }
    range
}

// Puts the level of each place into `im`: of its Z where `depth` is asked for, and else of its I.
pub fn to_levels(depth: bool, im: &mut [u16], zm: &[u16])
    ensures { im.new ≡ levels depth im.old zm.now (length im.old) }
{
    let range = range_of(depth, im, zm);
    for (place, i) in im.iter_mut().enumerate() {
        *i = range.level_at(depth, *i, number_at(zm, place));
    }
}

// How many of the first n places there are up to the last that anything was drawn at.
pub fn drawn_places(n: usize, im: &[u16], zm: &[u16]) -> usize
    ensures { result ≡ drawn_places im.now zm.now n }
{
    for place in (0..n).rev() {
        if !is_fresh(number_at(im, place), number_at(zm, place)) {
            return place + 1;
        }
    }
    0
}
