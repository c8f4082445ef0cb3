// A packed stream, from reset, in either layout.
ghost use Rattle.std.specs.Prelude.{◌≡◌, true, length};
ghost use Rattle.ground.specs.Refusal.{told};
ghost use Rattle.stream.specs.Format.{word_at};
ghost use Rattle.refusals.specs.Bounds.{in_bounds};
ghost use Rattle.registers.specs.Word.{word_of};
ghost use Rattle.registers.specs.Record.{reset_as, reset_of};
ghost use Rattle.machine.specs.Run.{ran};
ghost use Rattle.chip.specs.Stream.{words_from};
ghost use Rattle.machine.specs.Lent.{found, left};
ghost use Rattle.chip.specs.Promises.{Takes, RunsFrom, passed_in, registers_in};

use crate::step::{Answer, step_kept};
use ground::Refusal;
use registers::Registers;
use registers::word::word_of;
use stream::read::{checked, held, word};

// How a run ended: what refused a word or the stream, if anything did; the index of that word, or how many words there are; the sum of the
// counts of the words before it, modulo 2^64; and the registers.
#[derive(Clone, Copy)]
pub struct Ran {
    pub outcome: Result<(), Refusal>,
    pub index: u64,
    pub sum: u64,
    pub registers: Registers,
}

// The word at place k of a stream, taken.
fn step_at(
    r: Registers,
    bytes: &[u8],
    k: usize,
    im: &mut [u16],
    zm: &mut [u16],
) -> Result<Answer, Refusal>
    requires { (in_bounds r ≡ true) × (length im.old ≡ length zm.old) }
    ensures { Takes r (word_of (word_at bytes.now k)) (found im zm) (told result) (passed_in result) (registers_in r result) (left im zm) }
{
    step_kept(r, word_of(word(bytes, k)), im, zm)
}

// The words of a stream, one after the other, until one is refused. Bounds and lengths hold from reset on, so that no word asks about them. (A loop of its own, as
// `board`'s `run_words` says. The two memories become one struct at each word: where one comes from outside the loop, lines that are drawn by `drawn_anywhere` have 4
// to 9 % more instructions, since LLVM reads again at each step where the memories lie.)
fn run_words(start: Registers, bytes: &[u8], im: &mut [u16], zm: &mut [u16]) -> Ran
    requires { (in_bounds start ≡ true) × (length im.old ≡ length zm.old) }
    ensures { ran (told result.outcome) result.index result.sum result.registers (left im zm) ≡ words_from start bytes.now (found im zm) }
{
    let count = held(bytes);
    let mut r = start;
    let mut sum: u64 = 0;
    for k in 0..count {
        match step_at(r, bytes, k, im, zm) {
            Ok(a) => {
                sum = sum.wrapping_add(a.passed);
                r = a.registers;
            }
            Err(refusal) => {
                return Ran {
                    outcome: Err(refusal),
                    index: k as u64,
                    sum,
                    registers: r,
                };
            }
        }
    }
    Ran {
        outcome: Ok(()),
        index: count as u64,
        sum,
        registers: r,
    }
}

// A run that is refused before its first word.
fn refused(start: Registers, refusal: Refusal) -> Ran
    ensures { result ≡ record { outcome = Err refusal; index = 0; sum = 0; registers = start } }
{
    Ran {
        outcome: Err(refusal),
        index: 0,
        sum: 0,
        registers: start,
    }
}

// Runs a packed stream from a record: checks it and the memories, then takes word after word until one is refused.
fn run_from(start: Registers, bytes: &[u8], im: &mut [u16], zm: &mut [u16]) -> Ran
    requires { in_bounds start ≡ true }
    ensures { RunsFrom start bytes.now (found im zm) (told result.outcome) result.index result.sum result.registers (left im zm) }
{
    if let Err(refusal) = checked(bytes) {
        return refused(start, refusal);
    }
    if im.len() != zm.len() {
        return refused(start, Refusal::Unsound);
    }
    run_words(start, bytes, im, zm)
}

// Runs a packed stream from reset, over memories of rows one after the other.
#[tactic(auto, using(refusals::proofs::Kept::reset_kept_as))]
pub fn run(bytes: &[u8], im: &mut [u16], zm: &mut [u16]) -> Ran
    ensures { RunsFrom reset_of bytes.now (found im zm) (told result.outcome) result.index result.sum result.registers (left im zm) }
{
    run_from(Registers::reset(), bytes, im, zm)
}

// Runs a packed stream from reset, over memories of tiles. (Two calls by name, as C has them: `recording` hands both on.)
#[tactic(auto, using(refusals::proofs::Kept::reset_kept_as))]
pub fn run_tiled(bytes: &[u8], im: &mut [u16], zm: &mut [u16]) -> Ran
    ensures { RunsFrom (reset_as 1) bytes.now (found im zm) (told result.outcome) result.index result.sum result.registers (left im zm) }
{
    run_from(Registers::reset_tiled(), bytes, im, zm)
}
