// Numbers carried along a row, modulo 2^64.
ghost use Rattle.std.specs.Prelude.{◌≡◌, ◌/◌, if◌then◌else◌};
ghost use Rattle.picture.specs.Draw.{carried_one, steady_of};
ghost use Rattle.picture.specs.Loops.{after, stridden};

use crate::{CARRIED_ONE, Carried};

// The number that is carried, without its part.
pub fn whole(k: u64) -> u16
    ensures { result ≡ k / carried_one }
{
    (k >> 48) as u16
}

// One of two numbers. It is a choice and no branch.
pub(crate) fn pick<N: Copy>(first: bool, n: N, m: N) -> N
    ensures { result ≡ (if first then n else m) }
{
    if first { n } else { m }
}

impl Carried {
    // A number that stays the same along a row.
    pub fn steady(v: u16) -> Carried
        ensures { result ≡ steady_of v }
    {
        Carried {
            first: (v as u64) * CARRIED_ONE,
            add: 0,
        }
    }

    // What is carried so many pixels on.
    pub(crate) fn after(self, pixels: u16) -> Carried
        ensures { result ≡ after self pixels }
    {
        Carried {
            first: self
                .first
                .wrapping_add((pixels as u64).wrapping_mul(self.add)),
            ..self
        }
    }

    // What is carried to each of two or four pixels, from pixel `first` on.
    pub(crate) fn strided(self, first: u16, ways: u16) -> Carried
        ensures { result ≡ stridden self first ways }
    {
        Carried {
            add: (ways as u64).wrapping_mul(self.add),
            ..self.after(first)
        }
    }
}
