// The entry for the host program in C that takes a word, on the record where it stands. Its result is that of the chip's own `step`, by the
// same definitions. include/dextolumen.h has the C side. Other entries are in crates of their own: `reader` and `recording`, and the calls of
// libraries are handed on by `stream_c`, `board_c`, `instalments_c`, `mending_c` and `squares_c`.
#![tactic(auto)]

ghost use Rattle.registers.specs.Word.{decode};
ghost use Rattle.chip.specs.Promises.{TakesInPlace};

use chip::step::step;
use registers::Registers;

// The answer to a word: the number that refuses it, 0 for accepted, and how many pixels passed. The next registers are in the record.
// C has the struct, so that its fields are numbers.
#[repr(C)]
#[derive(Clone, Copy)]
pub struct Told {
    pub refusal: u64,
    pub passed: u64,
}

// Takes a word and updates the record where it stands, or refuses the word and leaves record and memories as they were.
#[unsafe(no_mangle)]
pub extern "C" fn dextolumen_step(
    registers: &mut Registers,
    command: u8,
    data: u16,
    im: &mut [u16],
    zm: &mut [u16],
) -> Told
    ensures { TakesInPlace registers (decode command «data») im zm result.refusal result.passed }
{
    match step(*registers, command, data, im, zm) {
        Ok(answer) => {
            *registers = answer.registers;
            Told {
                refusal: 0,
                passed: answer.passed,
            }
        }
        Err(refusal) => Told {
            refusal: refusal.into(),
            passed: 0,
        },
    }
}
