// A board's units: what their memories must be, and what one of them does with a word. (The memories go in as the slices that C lends, eight or a unit's
// two: a struct that holds them would want a clause about each in every contract.)
ghost use Rattle.std.specs.Prelude.{◌≡◌, ◌<◌, length};
ghost use Rattle.ground.specs.Refusal.{told};
ghost use Rattle.registers.specs.Word.{decode};
ghost use Rattle.registers.specs.Record.{laid};
ghost use Rattle.machine.specs.Run.{outcome};
ghost use Rattle.board.specs.Bank.{unit_even, even_lengths};
ghost use Rattle.chip.specs.Promises.{passed_in, registers_in};
ghost use Rattle.chip.specs.Units.{unit_layout};
ghost use Rattle.board.specs.Board.{part_of, Part};
ghost use Rattle.machine.specs.Lent.{found, left};

use chip::step::{Answer, step};
use ground::Refusal;
use registers::Registers;

// Whether unit u, if there is one, has two memories of length n.
fn is_unit_even(units: u16, u: u16, n: usize, im: &[u16], zm: &[u16]) -> bool
    ensures { result ≡ unit_even units u n (length im.now) (length zm.now) }
{
    (units <= u) | ((im.len() == n) & (zm.len() == n))
}

// Whether no two memories of the board differ in length.
pub(crate) fn is_even(
    units: u16,
    i0: &[u16],
    z0: &[u16],
    i1: &[u16],
    z1: &[u16],
    i2: &[u16],
    z2: &[u16],
    i3: &[u16],
    z3: &[u16],
) -> bool
    ensures { result ≡ even_lengths units (length i0.now) (length z0.now) (length i1.now) (length z1.now) (length i2.now) (length z2.now) (length i3.now) (length z3.now) }
{
    let n = i0.len();
    is_unit_even(units, 0, n, i0, z0)
        & is_unit_even(units, 1, n, i1, z1)
        & is_unit_even(units, 2, n, i2, z2)
        & is_unit_even(units, 3, n, i3, z3)
}

// The layout of unit u. (That there are fewer than five stands in three contracts: C sends the record, and the number of its field may be any.)
fn layout_of(units: u16, u: u16) -> u16
    requires units_bound { units < 5 }
    requires u_bound { u < 4 }
    ensures { result ≡ unit_layout units u }
{
    if units == 1 { 0 } else { units + u }
}

// A word for unit u, taken in its layout; a unit that the board lacks does nothing.
pub(crate) fn part_of(
    units: u16,
    u: u16,
    r: Registers,
    command: u8,
    data: u16,
    im: &mut [u16],
    zm: &mut [u16],
) -> Result<Answer, Refusal>
    requires units_bound { units < 5 }
    requires u_bound { u < 4 }
    ensures { Part (outcome (told result) (passed_in result) (registers_in (laid (unit_layout units u) r) result) (left im zm)) (part_of units r (decode command «data») u (found im zm)) }
{
    if units <= u {
        return Ok(Answer {
            passed: 0,
            registers: r,
        });
    }
    let mine = r.in_layout(layout_of(units, u));
    step(mine, command, data, im, zm)
}
