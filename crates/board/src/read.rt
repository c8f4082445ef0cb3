// The read call.
ghost use Rattle.std.specs.Prelude.{◌≡◌};
ghost use Rattle.ground.specs.Refusal.{told, number};
ghost use Rattle.board.specs.Calls.{read_number_by, board_reading, seen};
ghost use Rattle.board.specs.Bank.{lent};

use crate::Board;
use crate::unit::is_even;
use chip::transfer::read;
use ground::Refusal;
use refusals::bounds::is_sound;

// The answer to a read: the number that refuses it, 0 for accepted; the pixel, 0 where it is refused; and the next board.
// C has the struct, so that its fields are numbers.
#[repr(C)]
#[derive(Clone, Copy)]
pub struct Seen {
    pub refusal: u64,
    pub pixel: u16,
    pub board: Board,
}

// What the board itself refuses a read for: 2, 3, and 5 on several units.
fn checked(board: Board, even: bool) -> Result<(), Refusal>
    ensures { told result ≡ read_number_by board even }
{
    if !board.is_whole(even) | !is_sound(board.registers) {
        return Err(Refusal::Unsound);
    }
    if board.registers.started == 0 {
        return Err(Refusal::NotStarted);
    }
    if 1 < board.units {
        return Err(Refusal::NotModelled);
    }
    Ok(())
}

// An answer of no pixel that leaves the board as it was.
fn refused(refusal: Refusal, board: Board) -> Seen
    ensures { result ≡ seen (number refusal) 0 board }
{
    Seen {
        refusal: refusal.into(),
        pixel: 0,
        board,
    }
}

// Reads the region's pixel of the one unit and moves the region on, or refuses and leaves the board as it was.
#[unsafe(no_mangle)]
pub extern "C" fn dextolumen_board_read(
    board: Board,
    i0: &[u16],
    z0: &[u16],
    i1: &[u16],
    z1: &[u16],
    i2: &[u16],
    z2: &[u16],
    i3: &[u16],
    z3: &[u16],
) -> Seen
    ensures { result ≡ board_reading board (lent i0.now z0.now i1.now z1.now i2.now z2.now i3.now z3.now) }
{
    let even = is_even(board.units, i0, z0, i1, z1, i2, z2, i3, z3);
    if let Err(refusal) = checked(board, even) {
        return refused(refusal, board);
    }
    match read(board.registers, i0, z0) {
        Ok(reading) => Seen {
            refusal: 0,
            pixel: reading.pixel,
            board: Board {
                registers: reading.registers,
                ..board
            },
        },
        Err(refusal) => refused(refusal, board),
    }
}
