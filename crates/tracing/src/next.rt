// One word of a recording, taken and traced.
ghost use Rattle.std.specs.Prelude.{◌≡◌, ◌<◌, false};
ghost use Rattle.ground.specs.Refusal.{told};
ghost use Rattle.tracing.specs.Trace.{standing, is_over, moved, TakesTraced, line_at};
ghost use Rattle.tracing.specs.Lent.{Turned};

use crate::meaning::meaning;
use chip::run::Ran;
use chip::step::{Answer, passed, step};
use ground::{Refusal, number_of};
use listing::trace::{Traced, trace_line};
use registers::word::{decoded, parts};
use report::Page;
use stream::read::{held, word};

// A word that was taken: what is traced of it, and the run after it.
#[derive(Clone, Copy)]
pub(crate) struct Taken {
    pub(crate) traced: Traced,
    pub(crate) run: Ran,
}

// Whether nothing is left.
#[tactic(auto, using(ground::proofs::Numbers::number_positive), unfolding(crate::specs::Trace::is_over))]
pub(crate) fn is_over(run: Ran, bytes: &[u8]) -> bool
    ensures { result ≡ is_over bytes.now (told run.outcome) run.index }
{
    run.outcome.is_err() || held(bytes) as u64 <= run.index
}

// The run after an answer.
#[tactic(auto, unfolding(crate::specs::Trace::moved))]
fn move_on(run: Ran, answer: Result<Answer, Refusal>) -> Ran
    requires { run.index < 18446744073709551615 }
    ensures { result ≡ moved run answer }
{
    match answer {
        Ok(accepted) => Ran {
            outcome: Ok(()),
            index: run.index + 1,
            sum: run.sum.wrapping_add(accepted.passed),
            registers: accepted.registers,
        },
        Err(refusal) => Ran {
            outcome: Err(refusal),
            ..run
        },
    }
}

// Takes the next word. (The memories are lent one by one, as `step` takes them, here and in the calls of this crate.)
pub(crate) fn take(run: Ran, bytes: &[u8], im: &mut [u16], zm: &mut [u16]) -> Taken
    requires { is_over bytes.now (told run.outcome) run.index ≡ false }
    ensures { TakesTraced bytes.now (standing run im.old zm.old) result im.new zm.new }
{
    let word = word(bytes, run.index as usize);
    let (command, operand) = parts(word);
    let meaning = meaning(run.registers, decoded(command, operand));
    let answer = step(run.registers, command, operand, im, zm);
    Taken {
        traced: Traced {
            index: run.index,
            word,
            meaning,
            refusal: number_of(answer),
            passed: passed(answer),
        },
        run: move_on(run, answer),
    }
}

// Takes the next word and lays its line on a page; does nothing where nothing is left.
pub fn trace(run: Ran, bytes: &[u8], im: &mut [u16], zm: &mut [u16], page: &mut Page<'_>) -> Ran
    ensures { Turned line_at bytes run im zm page.old page.new result }
{
    if is_over(run, bytes) {
        return run;
    }
    let taken = take(run, bytes, im, zm);
    trace_line(taken.traced, page);
    taken.run
}
