// What is refused, and why: each kind of word, and the read call, can get only some of the refusals; an arm asks for these, the lowest number
// first. What is allowed of a word's data is in allow.rt, and the bounds on the record are in bounds.rt.
#![tactic(auto)]

ghost use Rattle.std.specs.Prelude.{◌≡◌, false, cond, not, [], ◌∷◌};
ghost use Rattle.ground.specs.Refusal.{number, told};
ghost use Rattle.refusals.specs.Refusal.{is_unknown, is_cold, awaits, table, lowest, refusal_of, read_refusal_of};
ghost use Rattle.refusals.specs.Rows.{aux_rows, parm_rows, coordinate_rows, transfer_rows};

mod allow;
pub mod bounds;

use crate::allow::{
    IMG_BITS, coordinate_fits, is_coordinate_allowed, is_init_allowed, is_parameter_allowed,
};
use crate::bounds::is_sound;
use ground::Refusal;
use registers::Registers;
use registers::regions::Way;
use registers::shape::Shape;
use registers::subcommand::{LARGEST_AUX, Subcommand, UNMODELLED_AUX};
use registers::word::Word;

// A command above 15.
fn is_unknown(word: Word) -> bool
    ensures { result ≡ is_unknown word }
{
    matches!(word, Word::Unknown)
}

// INIT can get 9 alone.
fn init_checked(allowed: bool) -> Result<(), Refusal>
    ensures { told result ≡ lowest 9 (not allowed ∷ []) }
{
    if allowed {
        Ok(())
    } else {
        Err(Refusal::NotAllowed)
    }
}

// What most words are asked first: whether no INIT was accepted yet, and whether a parameter is awaited. (Two answers by themselves, beside no value.)
#[derive(Clone, Copy)]
struct Stage {
    cold: bool,
    waits: bool,
}

impl Stage {
    // The stage that a record is at.
    fn of(r: Registers) -> Self
        ensures { result ≡ record { cold = is_cold r; waits = awaits r } }
    {
        Stage {
            cold: r.started == 0,
            waits: 0 < Subcommand::from(r.parked.subcommand).wanted(),
        }
    }

    // AUX can get 3, 5, 6 and 8.
    fn aux(self, number: u16) -> Result<(), Refusal>
        ensures { told result ≡ lowest 3 (aux_rows self.cold self.waits number) }
    {
        if self.cold {
            return Err(Refusal::NotStarted);
        }
        if number == UNMODELLED_AUX {
            return Err(Refusal::NotModelled);
        }
        if self.waits {
            return Err(Refusal::Awaited);
        }
        if LARGEST_AUX < number {
            return Err(Refusal::NoSubcommand);
        }
        Ok(())
    }

    // PARM can get 3, 7 and 9.
    fn parm(self, allowed: bool) -> Result<(), Refusal>
        ensures { told result ≡ lowest 3 (parm_rows self.cold self.waits allowed) }
    {
        if self.cold {
            return Err(Refusal::NotStarted);
        }
        if !self.waits {
            return Err(Refusal::NoneAwaited);
        }
        if !allowed {
            return Err(Refusal::NotAllowed);
        }
        Ok(())
    }

    // A coordinate can get 3, 6, 9 and 10.
    fn coordinate(self, allowed: bool, fits: bool) -> Result<(), Refusal>
        ensures { told result ≡ lowest 3 (coordinate_rows self.cold self.waits allowed fits) }
    {
        if self.cold {
            return Err(Refusal::NotStarted);
        }
        if self.waits {
            return Err(Refusal::Awaited);
        }
        if !allowed {
            return Err(Refusal::NotAllowed);
        }
        if !fits {
            return Err(Refusal::NoFit);
        }
        Ok(())
    }

    // PTRN and the read call can get 3, 6 and 14.
    fn transfer(self, ready: bool) -> Result<(), Refusal>
        ensures { told result ≡ lowest 3 (transfer_rows self.cold self.waits ready) }
    {
        if self.cold {
            return Err(Refusal::NotStarted);
        }
        if self.waits {
            return Err(Refusal::Awaited);
        }
        if !ready {
            return Err(Refusal::NoTransfer);
        }
        Ok(())
    }

    // A word that is refused whatever it carries gets 3, or its own number.
    fn never(self, refusal: Refusal) -> Result<(), Refusal>
        ensures { told result ≡ cond self.cold 3 (number refusal) }
    {
        Err(if self.cold {
            Refusal::NotStarted
        } else {
            refusal
        })
    }
}

// What refuses a word where the record and the memories are fit, the lowest number that applies.
pub fn judged(r: Registers, word: Word) -> Result<(), Refusal>
    ensures { told result ≡ lowest 1 (table false r word) }
{
    let stage = Stage::of(r);
    match word {
        Word::Init(data) => init_checked(is_init_allowed(data)),
        Word::Aux(n) => stage.aux(n),
        Word::Parm(v) => stage.parm(is_parameter_allowed(
            Subcommand::from(r.parked.subcommand),
            r.parked.came,
            v,
        )),
        Word::At(c, n) => stage.coordinate(
            is_coordinate_allowed(c, n),
            coordinate_fits(c, Shape::from(r.figure.shape), r.modes.lmode),
        ),
        Word::Img(data) => stage.coordinate(data & !IMG_BITS == 0, true),
        Word::Ptrn(_) => stage.transfer(r.region.way == Way::ToMemory as u16),
        Word::Reserved => stage.never(Refusal::ReservedCommand),
        Word::Unmodelled => stage.never(Refusal::NotModelled),
        Word::Unknown => Err(Refusal::BadWord),
    }
}

// What refuses a word over memories of two lengths, the lowest number that applies.
#[tactic(auto, unfolding(crate::specs::Refusal::refusal_of))]
pub fn checked(r: Registers, word: Word, ni: usize, nz: usize) -> Result<(), Refusal>
    ensures { told result ≡ refusal_of ni nz r word }
{
    if ni == nz && is_sound(r) {
        return judged(r, word);
    }
    Err(if is_unknown(word) {
        Refusal::BadWord
    } else {
        Refusal::Unsound
    })
}

// What refuses the read call over memories of two lengths, the lowest number that applies.
#[tactic(auto, unfolding(crate::specs::Refusal::read_refusal_of))]
pub fn read_checked(r: Registers, ni: usize, nz: usize) -> Result<(), Refusal>
    ensures { told result ≡ read_refusal_of ni nz r }
{
    if ni == nz && is_sound(r) {
        return Stage::of(r).transfer(r.region.way == Way::FromMemory as u16);
    }
    Err(Refusal::Unsound)
}
