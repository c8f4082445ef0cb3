// The figure that a word completes, and what it is counted as.
ghost use Rattle.std.specs.Prelude.{◌≡◌, ◌-◌, ◌≤◌};
ghost use Rattle.tally.specs.Lent.{Offered};
ghost use Rattle.tally.specs.Tally.{count};
ghost use Rattle.tally.specs.Overdraw.{figure_tally, muted_of};

use crate::{Count, Tally};
use chip::draw::draw;
use line::Mode;
use picture::{Kind, Memories};
use registers::Registers;
use registers::shape::Completed;
use triangle::draw::kind_of;

// The registers with the depth test and both write enables off.
fn muted(mut r: Registers) -> Registers
    ensures { result ≡ muted_of r }
{
    r.modes.zcontrol &= 63;
    r.modes.hcontrol = 0;
    r
}

// How many pixels a figure offers. With those registers all of them pass, and none is stored. (The memories are lent one by one, as chip's `step`
// takes them beside it.)
pub(crate) fn offered_by(r: Registers, figure: Completed, im: &mut [u16], zm: &mut [u16]) -> u64
    ensures { Offered r figure im zm result }
{
    let mut m = Memories { i: im, z: zm };
    draw(muted(r), figure, &mut m)
}

// A count, as one of the kind of the figure that was completed.
#[tactic(auto, using(crate::proofs::Figures::kind_same), unfolding(crate::specs::Overdraw::figure_tally))]
fn tally_of(r: Registers, figure: Completed, c: Count) -> Tally
    ensures { result ≡ figure_tally r figure c }
{
    match figure {
        Completed::Nothing => Tally::none(),
        Completed::Triangle(_, _, _) => Tally::only(kind_of(r.modes.pmode == 1), c),
        Completed::Segment(_, _) => Tally::only(Kind::from(Mode::from(r.modes.lmode)), c),
    }
}

// What an accepted word is counted as that offered and passed so many pixels.
pub(crate) fn word_tally(r: Registers, figure: Completed, offered: u64, passed: u64) -> Tally
    requires { passed ≤ offered }
    ensures { result ≡ figure_tally r figure (count 1 offered passed (offered - passed)) }
{
    let hidden = offered - passed;
    let count = Count {
        figures: 1,
        offered,
        passed,
        hidden,
    };
    tally_of(r, figure, count)
}
