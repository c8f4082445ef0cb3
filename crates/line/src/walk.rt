// A walk along a segment: how far a step moves to the side, and its two numbers where lines have depths, each carried as 2^48 times itself and a part,
// with one division at the start and none later.
ghost use Rattle.std.specs.Prelude.{◌≡◌, ◌/◌, ◌^◌, ◌≤◌, true};
ghost use Rattle.line.specs.Segment.{first_of};
ghost use Rattle.line.specs.Walk.{Tells, Carries, Stands, doubled, twice_of, next_of};

use crate::slope::Slope;
use picture::{CARRIED_ONE, Carried};

// What stays from step to step: how many steps are gone at once, and what is carried over them.
#[derive(Clone, Copy)]
pub(crate) struct Walk {
    pub(crate) stride: u64,
    pub(crate) side: Carried,
    pub(crate) i: Carried,
    pub(crate) z: Carried,
}

// Step k, and what is carried there.
#[derive(Clone, Copy)]
pub(crate) struct Step {
    pub(crate) k: u64,
    pub(crate) side: u64,
    pub(crate) i: u64,
    pub(crate) z: u64,
}

// Half of what 1 is as a carried number.
const HALF: u64 = 1 << 47;

// A number that goes evenly from one to another in n steps. It starts with a half more, since numbers are rounded to the nearest, and what a
// step adds is rounded up: in so few steps that makes no number larger.
fn carried(n: u16, first: u16, second: u16) -> Carried
    ensures { Tells n first second result }
{
    if n == 0 {
        return Carried::steady(second);
    }
    let steps = n as u64;
    let start = (first as u64) * CARRIED_ONE + HALF;
    if first <= second {
        let rise = ((second - first) as u64) * CARRIED_ONE;
        return Carried {
            first: start,
            add: rise.div_ceil(steps),
        };
    }
    let fall = ((first - second) as u64) * CARRIED_ONE;
    Carried {
        first: start,
        add: (fall / steps).wrapping_neg(),
    }
}

// The same where lines have depths. Others have no use for it, and are spared the division; an Option would be no plainer, since each step would ask it for the number again.
fn carried_deep(deep: bool, n: u16, first: u16, second: u16) -> Carried
    ensures { deep ≡ true → Tells n first second result }
{
    if deep {
        return carried(n, first, second);
    }
    Carried::steady(0)
}

// The walk along a segment, step by step, where lines have depths or not.
pub(crate) fn walk_of(slope: Slope, deep: bool) -> Walk
    ensures { Carries deep slope.a slope.b slope result }
{
    Walk {
        stride: 1,
        side: carried(slope.n, 0, slope.m),
        i: carried_deep(deep, slope.n, slope.a.i, slope.b.i),
        z: carried_deep(deep, slope.n, slope.a.z, slope.b.z),
    }
}

// What is carried over twice as many steps. `picture` has one that goes on to a pixel besides: by it this would be a call with two numbers, 0 and 2, and no plainer.
fn double(number: Carried) -> Carried
    ensures { result ≡ doubled number }
{
    Carried {
        add: number.add.wrapping_add(number.add),
        ..number
    }
}

impl Walk {
    // The same walk, twice as many steps at once.
    pub(crate) fn twice(self) -> Walk
        requires { self.stride ≤ 2 }
        ensures { result ≡ twice_of self }
    {
        Walk {
            stride: self.stride + self.stride,
            side: double(self.side),
            i: double(self.i),
            z: double(self.z),
        }
    }

    // A stride on.
    pub(crate) fn next(self, step: Step) -> Step
        requires { (step.k ≤ 65535) × (self.stride ≤ 4) }
        ensures { result ≡ next_of self step }
    {
        Step {
            k: step.k + self.stride,
            side: step.side.wrapping_add(self.side.add),
            i: step.i.wrapping_add(self.i.add),
            z: step.z.wrapping_add(self.z.add),
        }
    }

    // The first step that is drawn: a segment that is joined to the one before it leaves out step 0.
    pub(crate) fn begin(self, joined: bool) -> Step
        requires { self.stride ≡ 1 }
        ensures { Stands self result × (result.k ≡ first_of joined) }
    {
        let step = Step {
            k: 0,
            side: self.side.first,
            i: self.i.first,
            z: self.z.first,
        };
        if joined { self.next(step) } else { step }
    }
}
