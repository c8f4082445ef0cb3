// One word.
ghost use Rattle.std.specs.Prelude.{◌≡◌, true, length};
ghost use Rattle.ground.specs.Refusal.{told};
ghost use Rattle.refusals.specs.Bounds.{in_bounds};
ghost use Rattle.refusals.specs.Refusal.{refusal_of};
ghost use Rattle.registers.specs.Word.{decode};
ghost use Rattle.machine.specs.Lent.{found, left};
ghost use Rattle.chip.specs.Promises.{Takes, passed_in, registers_in};

use crate::draw::draw;
use crate::transfer::load;
use ground::Refusal;
use picture::Memories;
use refusals::{checked, judged};
use registers::Registers;
use registers::word::{Word, decoded};

// The answer to an accepted word: how many pixels passed, and the next registers.
#[derive(Clone, Copy)]
pub struct Answer {
    pub passed: u64,
    pub registers: Registers,
}

// How many pixels passed by an answer; none where the word was refused.
pub fn passed(answer: Result<Answer, Refusal>) -> u64
    ensures { result ≡ passed_in answer }
{
    match answer {
        Ok(answer) => answer.passed,
        Err(_) => 0,
    }
}

// An answer of no pixels.
fn quiet(registers: Registers) -> Answer
    ensures { result ≡ record { passed = 0; registers = registers } }
{
    Answer {
        passed: 0,
        registers,
    }
}

// Takes a word that nothing refuses. The two slices become one struct where something is drawn or stored, and not before, so that LLVM sees here what is known of them.
fn take(r: Registers, word: Word, im: &mut [u16], zm: &mut [u16]) -> Answer
    requires { refusal_of (length im.old) (length zm.old) r word ≡ 0 }
    ensures { Takes r word (found im zm) 0 result.passed result.registers (left im zm) }
{
    match word {
        Word::Init(d) => quiet(r.init(d)),
        Word::Aux(n) => quiet(r.aux(n)),
        Word::Parm(v) => quiet(r.parm(v)),
        Word::At(c, n) => {
            let passed = draw(r, r.completed_by(c, n), &mut Memories { i: im, z: zm });
            Answer {
                passed,
                registers: r.coordinate(c, n),
            }
        }
        Word::Img(d) => quiet(r.img(d)),
        Word::Ptrn(v) => {
            load(r, v, &mut Memories { i: im, z: zm });
            quiet(r.transferred())
        }
        // These are refused, so that none of them comes here.
        Word::Reserved | Word::Unmodelled | Word::Unknown => quiet(r),
    }
}

// Takes a word, or refuses it and leaves registers and memories as they were. It is lent two slices, which calls for C hand on as they got them. Command and data
// come as two numbers too: C sends them so, and `decode` takes them so.
pub fn step(
    r: Registers,
    command: u8,
    data: u16,
    im: &mut [u16],
    zm: &mut [u16],
) -> Result<Answer, Refusal>
    ensures { Takes r (decode command «data») (found im zm) (told result) (passed_in result) (registers_in r result) (left im zm) }
{
    let word = decoded(command, data);
    checked(r, word, im.len(), zm.len())?;
    Ok(take(r, word, im, zm))
}

// The same of a decoded word, for a caller that knows that the record breaks no bound and that the memories are of one length: neither is asked
// again. Both stand in the contracts from here up to the loop over the words: a type for such a record would be no plainer, since each word makes the next record
// and would have to prove it anew there, and `Memories` holds any two slices that are lent, unlike ones too.
pub(crate) fn step_kept(
    r: Registers,
    word: Word,
    im: &mut [u16],
    zm: &mut [u16],
) -> Result<Answer, Refusal>
    requires { (in_bounds r ≡ true) × (length im.old ≡ length zm.old) }
    ensures { Takes r word (found im zm) (told result) (passed_in result) (registers_in r result) (left im zm) }
{
    judged(r, word)?;
    Ok(take(r, word, im, zm))
}
