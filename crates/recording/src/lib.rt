// Entries for the host program in C: the record after reset, over rows or over tiles, and a whole packed stream from there on. Their results are those of the calls
// they make, by the same definitions. include/dextolumen.h has the C side. A word is an entry of `driver`: so each archive calls the chip's
// `step` from one place, the step is compiled into the loop over the words, and the record is not copied from word to word.
#![tactic(auto)]

ghost use Rattle.std.specs.Prelude.{◌≡◌};
ghost use Rattle.ground.specs.Refusal.{told};
ghost use Rattle.registers.specs.Record.{reset_as, reset_of};
ghost use Rattle.machine.specs.Machine.{memories};
ghost use Rattle.chip.specs.Promises.{RunsFrom};
ghost use Rattle.machine.specs.Lent.{found, left};

use chip::run::{Ran, run, run_tiled};
use ground::number_of;
use registers::Registers;

// How a run ended: the number that refused a word or the stream, 0 for none; the index of that word, or how many words there are; the sum
// of the counts of the words before it, modulo 2^64; and the registers. C has the struct, so that its fields are numbers.
#[repr(C)]
#[derive(Clone, Copy)]
pub struct Ended {
    pub refusal: u64,
    pub index: u64,
    pub sum: u64,
    pub registers: Registers,
}

impl From<Ran> for Ended {
    ghost from_gives = { λ ran ended. ended ≡ record { refusal = told ran.outcome; index = ran.index; sum = ran.sum; registers = ran.registers } };

    fn from(ran: Ran) -> Ended {
        Ended {
            refusal: number_of(ran.outcome),
            index: ran.index,
            sum: ran.sum,
            registers: ran.registers,
        }
    }
}

// The record after reset, over memories of rows one after the other.
#[unsafe(no_mangle)]
pub extern "C" fn dextolumen_reset() -> Registers
    ensures { result ≡ reset_of }
{
    Registers::reset()
}

// The record after reset, over memories in tiles of four by four.
#[unsafe(no_mangle)]
pub extern "C" fn dextolumen_reset_tiled() -> Registers
    ensures { result ≡ reset_as 1 }
{
    Registers::reset_tiled()
}

// Runs a packed stream from reset, over memories of rows one after the other.
#[unsafe(no_mangle)]
pub extern "C" fn dextolumen_run(bytes: &[u8], im: &mut [u16], zm: &mut [u16]) -> Ended
    ensures { RunsFrom reset_of bytes.now (found im zm) result.refusal result.index result.sum result.registers (left im zm) }
{
    Ended::from(run(bytes, im, zm))
}

// Runs a packed stream from reset, over memories in tiles of four by four. (C has each of the four calls by its name, so that there are two of each here.)
#[unsafe(no_mangle)]
pub extern "C" fn dextolumen_run_tiled(bytes: &[u8], im: &mut [u16], zm: &mut [u16]) -> Ended
    ensures { RunsFrom (reset_as 1) bytes.now (found im zm) result.refusal result.index result.sum result.registers (left im zm) }
{
    Ended::from(run_tiled(bytes, im, zm))
}
