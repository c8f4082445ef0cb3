// A board of one, two or four units, over the promises of the chip: reset, one word, a read, and a packed stream. specs/ says what each call tells and
// leaves. The calls are for C too (include/dextolumen.h), exported by `board_c`. Unit u of N has the columns whose remainder by N is u; it works on the board's
// registers in a layout of its own, by which it knows its number.
#![tactic(auto)]

ghost use Rattle.std.specs.Prelude.{◌≡◌};
ghost use Rattle.registers.specs.Record.{reset_of};
ghost use Rattle.board.specs.Door.{is_board};
ghost use Rattle.board.specs.Board.{board, is_whole_by};
ghost use Rattle.board.specs.Calls.{resetting, started_of};

mod door;
pub mod read;
pub mod run;
pub mod step;
mod unit;

use ground::Refusal;
use registers::Registers;

// The number of units, and the registers, which are those of one chip.
#[repr(C)]
#[derive(Clone, Copy)]
pub struct Board {
    pub units: u16,
    pub registers: Registers,
}

// The answer to a reset: the number that refuses it, 0 for accepted, and the board. C has the struct and those of the other
// calls, so that their fields are numbers.
#[repr(C)]
#[derive(Clone, Copy)]
pub struct Started {
    pub refusal: u64,
    pub board: Board,
}

impl Board {
    // A board of one unit after reset.
    pub(crate) fn single() -> Board
        ensures { result ≡ board 1 reset_of }
    {
        Board {
            units: 1,
            registers: Registers::reset(),
        }
    }

    // Whether a board has 1, 2 or 4 units, rows as one chip has them, and memories of one length.
    pub(crate) fn is_whole(self, even: bool) -> bool
        ensures { result ≡ is_whole_by self even }
    {
        is_board(self.units as u64) & (self.registers.frame.layout == 0) & even
    }
}

// Whether a board may have so many units.
#[tactic(auto, using(std::proofs::lemmas::Bool::Decides::nat_tests), unfolding(crate::specs::Door::is_board))]
fn is_board(units: u64) -> bool
    ensures { result ≡ is_board units }
{
    matches!(units, 1 | 2 | 4)
}

// A board of so many units after reset.
pub(crate) fn reset(units: u64) -> Result<Board, Refusal>
    ensures { started_of result ≡ resetting units }
{
    if !is_board(units) {
        return Err(Refusal::NotAllowed);
    }
    Ok(Board {
        units: units as u16,
        registers: Registers::reset(),
    })
}

// A board of so many units after reset; of one, where it may not have so many.
#[unsafe(no_mangle)]
pub extern "C" fn dextolumen_board_reset(units: u64) -> Started
    ensures { result ≡ resetting units }
{
    match reset(units) {
        Ok(board) => Started { refusal: 0, board },
        Err(refusal) => Started {
            refusal: refusal.into(),
            board: Board::single(),
        },
    }
}
