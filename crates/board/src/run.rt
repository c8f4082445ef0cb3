// A packed stream, from reset.
ghost use Rattle.std.specs.Prelude.{◌≡◌};
ghost use Rattle.ground.specs.Refusal.{number};
ghost use Rattle.stream.specs.Format.{word_at};
ghost use Rattle.registers.specs.Word.{word_of};
ghost use Rattle.board.specs.Board.{TakesOn, reply_of};
ghost use Rattle.board.specs.Calls.{words_from, running_from, ended_of, RunsOn};
ghost use Rattle.board.specs.Bank.{found_in, left_in};

use crate::step::{Taken, step};
use crate::unit::is_even;
use crate::{Board, reset};
use ground::Refusal;
use registers::word::parts;
use stream::read::{checked, held, word};

// How a run ended: the number that refused the number of units, a word or the stream, 0 for none; the index of that word, or how many words there are; the
// sum of the counts of the words before it, modulo 2^64; and the board. C has the struct, so that its fields are numbers.
#[repr(C)]
#[derive(Clone, Copy)]
pub struct Ended {
    pub refusal: u64,
    pub index: u64,
    pub sum: u64,
    pub board: Board,
}

// The word at place k of a stream, taken.
#[tactic(auto, using(stream::proofs::Round::word_fits, registers::proofs::Words::command_whole), unfolding(registers::specs::Word::word_of))]
fn step_at(
    board: Board,
    bytes: &[u8],
    k: usize,
    i0: &mut [u16],
    z0: &mut [u16],
    i1: &mut [u16],
    z1: &mut [u16],
    i2: &mut [u16],
    z2: &mut [u16],
    i3: &mut [u16],
    z3: &mut [u16],
) -> Result<Taken, Refusal>
    ensures { TakesOn board (word_of (word_at bytes.now k)) (found_in i0 z0 i1 z1 i2 z2 i3 z3) (reply_of board result) (left_in i0 z0 i1 z1 i2 z2 i3 z3) }
{
    let (command, data) = parts(word(bytes, k));
    step(board, command, data, i0, z0, i1, z1, i2, z2, i3, z3)
}

// The words of a stream, one after the other, until one is refused. (`chip` and `tally` have this loop over what a word changes there. A generic one would
// need a trait of that, with its law: here a board and eight memories that C lends, there a record and two, or counts. Each impl would be longer than the loop.)
fn run_words(
    start: Board,
    bytes: &[u8],
    i0: &mut [u16],
    z0: &mut [u16],
    i1: &mut [u16],
    z1: &mut [u16],
    i2: &mut [u16],
    z2: &mut [u16],
    i3: &mut [u16],
    z3: &mut [u16],
) -> Ended
    ensures { ended_of result (left_in i0 z0 i1 z1 i2 z2 i3 z3) ≡ words_from start bytes.now (found_in i0 z0 i1 z1 i2 z2 i3 z3) }
{
    let count = held(bytes);
    let mut board = start;
    let mut sum: u64 = 0;
    for k in 0..count {
        match step_at(board, bytes, k, i0, z0, i1, z1, i2, z2, i3, z3) {
            Ok(taken) => {
                sum = sum.wrapping_add(taken.passed);
                board = taken.board;
            }
            Err(refusal) => {
                return Ended {
                    refusal: refusal.into(),
                    index: k as u64,
                    sum,
                    board,
                };
            }
        }
    }
    Ended {
        refusal: 0,
        index: count as u64,
        sum,
        board,
    }
}

// A run that is refused before its first word.
fn stopped(refusal: Refusal, board: Board) -> Ended
    ensures { result ≡ record { refusal = number refusal; index = 0; sum = 0; board = board } }
{
    Ended {
        refusal: refusal.into(),
        index: 0,
        sum: 0,
        board,
    }
}

// Runs a packed stream from a board: checks it and the memories, then takes word after word until one is refused.
fn run_from(
    start: Board,
    bytes: &[u8],
    i0: &mut [u16],
    z0: &mut [u16],
    i1: &mut [u16],
    z1: &mut [u16],
    i2: &mut [u16],
    z2: &mut [u16],
    i3: &mut [u16],
    z3: &mut [u16],
) -> Ended
    ensures { ended_of result (left_in i0 z0 i1 z1 i2 z2 i3 z3) ≡ running_from start bytes.now (found_in i0 z0 i1 z1 i2 z2 i3 z3) }
{
    if let Err(refusal) = checked(bytes) {
        return stopped(refusal, start);
    }
    if !is_even(start.units, i0, z0, i1, z1, i2, z2, i3, z3) {
        return stopped(Refusal::Unsound, start);
    }
    run_words(start, bytes, i0, z0, i1, z1, i2, z2, i3, z3)
}

// Runs a packed stream from the reset of a board of so many units.
#[unsafe(no_mangle)]
pub extern "C" fn dextolumen_board_run(
    units: u64,
    bytes: &[u8],
    i0: &mut [u16],
    z0: &mut [u16],
    i1: &mut [u16],
    z1: &mut [u16],
    i2: &mut [u16],
    z2: &mut [u16],
    i3: &mut [u16],
    z3: &mut [u16],
) -> Ended
    ensures { RunsOn units bytes.now (found_in i0 z0 i1 z1 i2 z2 i3 z3) result (left_in i0 z0 i1 z1 i2 z2 i3 z3) }
{
    match reset(units) {
        Ok(board) => run_from(board, bytes, i0, z0, i1, z1, i2, z2, i3, z3),
        Err(refusal) => stopped(refusal, Board::single()),
    }
}
