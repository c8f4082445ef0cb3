// What remains of a square.
ghost use Rattle.std.specs.Prelude.{◌≡◌, ◌+◌, ◌≤◌};
ghost use Rattle.squares.specs.Change.{differs};
ghost use Rattle.squares.specs.Room.{Side, Room, AddsSquares};

use crate::change::square_differs;
use crate::found::Found;
use crate::pictures::Pictures;
use crate::size::Corner;

// Adds the squares of side 8 that remain of a square. A square outside the pictures is given up at once. One of side 8 is compared; a larger one is
// not, since it has a difference exactly where one of its quarters has: so no pixel is compared twice.
pub(crate) fn quarter(pictures: &Pictures, square: Corner, side: usize, found: &mut Found)
    requires side_bound { (square.x + side ≤ 256) × (square.y + side ≤ 256) }
    requires side { Side side }
    requires room { Room (differs pictures.now.old.now pictures.now.new.now pictures.now.size.width pictures.now.size.rows) side square found.old }
    ensures { AddsSquares (differs pictures.now.old.now pictures.now.new.now pictures.now.size.width pictures.now.size.rows) side square found.old found.new }
{
    if !pictures.size.has(square) {
        return;
    }
    if side <= 8 {
        if square_differs(pictures, square) {
            found.push(square.number());
        }
        return;
    }
    let Corner { x, y } = square;
    let half = side / 2;
    quarter(pictures, square, half, found);
    quarter(pictures, Corner { x: x + half, y }, half, found);
    quarter(pictures, Corner { x, y: y + half }, half, found);
    quarter(
        pictures,
        Corner {
            x: x + half,
            y: y + half,
        },
        half,
        found,
    );
}
