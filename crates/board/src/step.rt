// One word.
ghost use Rattle.std.specs.Prelude.{◌≡◌, ◌<◌, if◌then◌else◌, nat_lt};
ghost use Rattle.ground.specs.Refusal.{number};
ghost use Rattle.registers.specs.Word.{decode};
ghost use Rattle.board.specs.Board.{units_step, reply_of, replied_of, TakesOn};
ghost use Rattle.board.specs.Bank.{found_in, left_in};

use crate::Board;
use crate::door::{command_of, data_of};
use crate::unit::{is_even, part_of};
use chip::step::passed;
use ground::Refusal;

// The answer to a word: the number that refuses it, 0 for accepted; how many pixels passed in all units; and the next board.
// C has the struct, so that its fields are numbers.
#[repr(C)]
#[derive(Clone, Copy)]
pub struct Reply {
    pub refusal: u64,
    pub passed: u64,
    pub board: Board,
}

// The answer to an accepted word.
#[derive(Clone, Copy)]
pub(crate) struct Taken {
    pub(crate) passed: u64,
    pub(crate) board: Board,
}

// The same for C, or what refused the word, which leaves the board as it was.
fn replied(board: Board, answer: Result<Taken, Refusal>) -> Reply
    ensures { result ≡ reply_of board answer }
{
    match answer {
        Ok(taken) => Reply {
            refusal: 0,
            passed: taken.passed,
            board: taken.board,
        },
        Err(refusal) => Reply {
            refusal: refusal.into(),
            passed: 0,
            board,
        },
    }
}

// What refuses a word that meets no such board as may be: its command, where that is above 15.
fn unfit(command: u8) -> Refusal
    ensures { number result ≡ (if nat_lt 15 command then 1 else 2) }
{
    if 15 < command {
        Refusal::BadWord
    } else {
        Refusal::Unsound
    }
}

// The units take a word, one after the other, unless the first refuses it: then all do.
fn units_step(
    board: Board,
    command: u8,
    data: u16,
    i0: &mut [u16],
    z0: &mut [u16],
    i1: &mut [u16],
    z1: &mut [u16],
    i2: &mut [u16],
    z2: &mut [u16],
    i3: &mut [u16],
    z3: &mut [u16],
) -> Result<Taken, Refusal>
    requires { board.units < 5 }
    ensures { replied_of (reply_of board result) (left_in i0 z0 i1 z1 i2 z2 i3 z3) ≡ units_step board (decode command «data») (found_in i0 z0 i1 z1 i2 z2 i3 z3) }
{
    let Board { units, registers } = board;
    let first = part_of(units, 0, registers, command, data, i0, z0)?;
    let second = passed(part_of(units, 1, registers, command, data, i1, z1));
    let third = passed(part_of(units, 2, registers, command, data, i2, z2));
    let fourth = passed(part_of(units, 3, registers, command, data, i3, z3));
    Ok(Taken {
        passed: first.passed + second + third + fourth,
        board: Board {
            units,
            registers: first.registers.in_layout(0),
        },
    })
}

// Takes a word, or refuses it and leaves board and memories as they were.
pub(crate) fn step(
    board: Board,
    command: u8,
    data: u16,
    i0: &mut [u16],
    z0: &mut [u16],
    i1: &mut [u16],
    z1: &mut [u16],
    i2: &mut [u16],
    z2: &mut [u16],
    i3: &mut [u16],
    z3: &mut [u16],
) -> Result<Taken, Refusal>
    ensures { TakesOn board (decode command «data») (found_in i0 z0 i1 z1 i2 z2 i3 z3) (reply_of board result) (left_in i0 z0 i1 z1 i2 z2 i3 z3) }
{
    let even = is_even(board.units, i0, z0, i1, z1, i2, z2, i3, z3);
    if !board.is_whole(even) {
        return Err(unfit(command));
    }
    let sent = command_of(board.units, command);
    let with = data_of(board.units, command, data);
    units_step(board, sent, with, i0, z0, i1, z1, i2, z2, i3, z3)
}

// The same for C.
#[unsafe(no_mangle)]
pub extern "C" fn dextolumen_board_step(
    board: Board,
    command: u8,
    data: u16,
    i0: &mut [u16],
    z0: &mut [u16],
    i1: &mut [u16],
    z1: &mut [u16],
    i2: &mut [u16],
    z2: &mut [u16],
    i3: &mut [u16],
    z3: &mut [u16],
) -> Reply
    ensures { TakesOn board (decode command «data») (found_in i0 z0 i1 z1 i2 z2 i3 z3) result (left_in i0 z0 i1 z1 i2 z2 i3 z3) }
{
    let answer = step(board, command, data, i0, z0, i1, z1, i2, z2, i3, z3);
    replied(board, answer)
}
