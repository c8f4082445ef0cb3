// Where a segment may draw: what is asked of a step's pixel before it is drawn.
ghost use Rattle.std.specs.Prelude.{◌≡◌};
ghost use Rattle.picture.specs.Place.{rows_of};
ghost use Rattle.line.specs.Segment.{kind_of};
ghost use Rattle.line.specs.Field.{in_field, ends_within, is_open, lies_whole, direct_rows, is_bare};

use crate::Mode;
use picture::pixel::is_in_window;
use picture::place::{lies_plain, lies_tiled, rows_of};
use picture::{Frame, Pen, Vertex};

// Whether the transparency pattern hides nothing of a line.
pub(crate) fn is_open(pen: Pen, mode: Mode) -> bool
    ensures { result ≡ is_open pen (kind_of mode) }
{
    matches!(mode, Mode::Two) | (pen.transparency == 65535)
}

// Whether pixels lie in rows or in tiles, so that the memory has every column.
fn lies_whole(frame: Frame) -> bool
    ensures { result ≡ lies_whole frame }
{
    lies_plain(frame) | lies_tiled(frame)
}

// The rows in use, over memories of these lengths, where nothing but the window and the memory is asked of a segment's pixels: in rows and in tiles, where
// the transparency pattern hides nothing.
pub(crate) fn direct_rows(pen: Pen, mode: Mode, ni: usize, nz: usize) -> Option<usize>
    ensures { result ≡ direct_rows pen (kind_of mode) (rows_of pen.frame ni nz) }
{
    if lies_whole(pen.frame) & is_open(pen, mode) {
        return Some(rows_of(pen.frame, ni, nz));
    }
    None
}

// Whether pixel (x, y) is inside the window and the memory, with so many rows in use.
pub(crate) fn is_within(pen: Pen, rows: usize, x: u16, y: u16) -> bool
    ensures { result ≡ in_field pen rows x y }
{
    let memory = (x < pen.frame.line) & ((y as usize) < rows);
    is_in_window(pen, x, y) & memory
}

// Whether both ends of a segment are.
pub(crate) fn has_ends(pen: Pen, rows: usize, a: Vertex, b: Vertex) -> bool
    ensures { result ≡ ends_within pen rows a b }
{
    is_within(pen, rows, a.x, a.y) & is_within(pen, rows, b.x, b.y)
}

// Whether the depth alone decides of a line's pixels, and numbers are stored whole.
pub(crate) fn is_bare(pen: Pen, mode: Mode) -> bool
    ensures { result ≡ is_bare pen (kind_of mode) }
{
    let tested = !mode.is_deep() | (pen.depth & pen.zenable);
    tested & pen.ienable & (pen.planes == 65535)
}
