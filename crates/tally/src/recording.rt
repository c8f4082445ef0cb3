// A recording, run word by word on a fresh picture and counted.
ghost use Rattle.std.specs.Prelude.{◌≡◌, ◌≤◌, length};
ghost use Rattle.stream.specs.Format.{word_at};
ghost use Rattle.registers.specs.Word.{decode, word_of};
ghost use Rattle.tally.specs.Overdraw.{entered, entry_from, entry_of};
ghost use Rattle.tally.specs.Tally.{no_tally};
ghost use Rattle.tally.specs.Lent.{Counted};
ghost use Rattle.machine.specs.Lent.{found};

use crate::figure::{offered_by, word_tally};
use crate::{Entry, Stop, Tally};
use chip::figure::completed;
use chip::step::{Answer, step};
use ground::Refusal;
use registers::Registers;
use registers::word::{decoded, parts};
use stream::read::{checked, held, word};

// What comes of an accepted word: what `step` answers to it, and what it is counted as.
#[derive(Clone, Copy)]
struct Turn {
    answer: Answer,
    tally: Tally,
}

// Takes a word and counts it.
fn take(
    r: Registers,
    command: u8,
    data: u16,
    im: &mut [u16],
    zm: &mut [u16],
) -> Result<Turn, Refusal>
    ensures { Counted r (decode command «data») im zm result }
{
    let figure = completed(r, decoded(command, data));
    let offered = offered_by(r, figure, im, zm);
    let answer = step(r, command, data, im, zm)?;
    let tally = word_tally(r, figure, offered, answer.passed);
    Ok(Turn { answer, tally })
}

// The word at place k of a stream, taken and counted.
#[tactic(auto, using(stream::proofs::Round::word_fits, registers::proofs::Words::command_whole), unfolding(registers::specs::Word::word_of))]
fn take_at(
    r: Registers,
    bytes: &[u8],
    k: usize,
    im: &mut [u16],
    zm: &mut [u16],
) -> Result<Turn, Refusal>
    ensures { Counted r (word_of (word_at bytes.now k)) im zm result }
{
    let (command, data) = parts(word(bytes, k));
    take(r, command, data, im, zm)
}

// The words of a stream, one after the other, until one is refused. (A loop of its own, as `board`'s `run_words` says.)
fn words_counted(bytes: &[u8], im: &mut [u16], zm: &mut [u16]) -> Entry
    requires { length bytes.now ≤ 8192 }
    ensures { entered result ≡ entry_from bytes.now (found im zm) }
{
    let count = held(bytes);
    let mut r = Registers::reset();
    let mut tally = Tally::none();
    for k in 0..count {
        match take_at(r, bytes, k, im, zm) {
            Ok(turn) => {
                tally = tally.with(turn.tally);
                r = turn.answer.registers;
            }
            Err(refusal) => {
                return Entry {
                    outcome: Err(Stop::Refused(refusal)),
                    tally,
                };
            }
        }
    }
    Entry {
        outcome: Ok(()),
        tally,
    }
}

// The entry of a recording of which nothing is counted.
fn uncounted(why: Stop) -> Entry
    ensures { result ≡ record { outcome = Err why; tally = no_tally } }
{
    Entry {
        outcome: Err(why),
        tally: Tally::none(),
    }
}

// A recording's entry in the report: run on a fresh picture of the drawing program's size, unless it is too long.
#[tactic(auto, using(ground::proofs::Numbers::number_positive, crate::proofs::Entries::entry_long, crate::proofs::Entries::entry_flawed, crate::proofs::Entries::entry_run), unfolding(crate::specs::Overdraw::entered))]
pub fn enter(bytes: &[u8]) -> Entry
    ensures { entered result ≡ entry_of bytes.now }
{
    if 8192 < bytes.len() {
        return uncounted(Stop::TooLong);
    }
    if let Err(refusal) = checked(bytes) {
        return uncounted(Stop::Refused(refusal));
    }
    let mut im = [0u16; 8192];
    let mut zm = [65535u16; 8192];
    words_counted(bytes, &mut im, &mut zm)
}
