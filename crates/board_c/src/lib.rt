// The calls of the crate board for a host in C. (Said again here: a static library exports the marked functions of its own crate alone.)
#![tactic(auto)]

ghost use Rattle.std.specs.Prelude.{◌≡◌};
ghost use Rattle.registers.specs.Word.{decode};
ghost use Rattle.board.specs.Board.{TakesOn};
ghost use Rattle.board.specs.Calls.{resetting, board_reading, RunsOn};
ghost use Rattle.board.specs.Bank.{found_in, left_in, lent};

use board::read::Seen;
use board::run::Ended;
use board::step::Reply;
use board::{Board, Started};

// A board of so many units after reset; of one, where it may not have so many.
#[unsafe(no_mangle)]
pub extern "C" fn dextolumen_board_reset(units: u64) -> Started
    ensures { result ≡ resetting units }
{
    board::dextolumen_board_reset(units)
}

// Takes a word, or refuses it and leaves board and memories as they were.
#[unsafe(no_mangle)]
pub extern "C" fn dextolumen_board_step(
    board: Board,
    command: u8,
    data: u16,
    i0: &mut [u16],
    z0: &mut [u16],
    i1: &mut [u16],
    z1: &mut [u16],
    i2: &mut [u16],
    z2: &mut [u16],
    i3: &mut [u16],
    z3: &mut [u16],
) -> Reply
    ensures { TakesOn board (decode command «data») (found_in i0 z0 i1 z1 i2 z2 i3 z3) result (left_in i0 z0 i1 z1 i2 z2 i3 z3) }
{
    board::step::dextolumen_board_step(board, command, data, i0, z0, i1, z1, i2, z2, i3, z3)
}

// Runs a packed stream from the reset of a board of so many units.
#[unsafe(no_mangle)]
pub extern "C" fn dextolumen_board_run(
    units: u64,
    bytes: &[u8],
    i0: &mut [u16],
    z0: &mut [u16],
    i1: &mut [u16],
    z1: &mut [u16],
    i2: &mut [u16],
    z2: &mut [u16],
    i3: &mut [u16],
    z3: &mut [u16],
) -> Ended
    ensures { RunsOn units bytes.now (found_in i0 z0 i1 z1 i2 z2 i3 z3) result (left_in i0 z0 i1 z1 i2 z2 i3 z3) }
{
    board::run::dextolumen_board_run(units, bytes, i0, z0, i1, z1, i2, z2, i3, z3)
}

// Reads the region's pixel of the one unit and moves the region on, or refuses and leaves the board as it was.
#[unsafe(no_mangle)]
pub extern "C" fn dextolumen_board_read(
    board: Board,
    i0: &[u16],
    z0: &[u16],
    i1: &[u16],
    z1: &[u16],
    i2: &[u16],
    z2: &[u16],
    i3: &[u16],
    z3: &[u16],
) -> Seen
    ensures { result ≡ board_reading board (lent i0.now z0.now i1.now z1.now i2.now z2.now i3.now z3.now) }
{
    board::read::dextolumen_board_read(board, i0, z0, i1, z1, i2, z2, i3, z3)
}
