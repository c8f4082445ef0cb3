// The image of a memory: its heading, and its rows from the top down, as many at a time as the lent output is to hold. `most` is the greatest number
// that a pixel may have.
ghost use Rattle.std.specs.Prelude.{◌≡◌, ◌*◌, ◌≤◌, min, length, ltb};
ghost use Rattle.report.specs.Image.{image_heading, pixel, pixel_size, numbers, row_bytes, down};
ghost use Rattle.report.specs.Calls.{Adds, Room, Sized, wrote, writing_text};

use crate::NoRoom;
use crate::number::digits;
use crate::page::Page;
use crate::place::number_at;

// (`most` and `line` stand side by side in all of these, as in the definitions of specs/Image.antt and in the calls that docs/CALLS.md names.)

// How many bytes the heading takes: six, and the digits of the width, the height and the greatest number.
fn size_of_heading(most: u16, line: u16, rows: usize) -> usize
    ensures { Sized (image_heading most line rows) 66 result }
{
    digits(line as u64) + digits(rows as u64) + digits(most as u64) + 6
}

// Puts the heading.
fn put_image_heading(most: u16, line: u16, rows: usize, page: &mut Page<'_>)
    requires { Room (length (image_heading most line rows)) page.old }
    ensures { Adds (image_heading most line rows) page.old page.new }
{
    page.put_bytes(b"P5\n");
    page.put_pair(line as u64, rows as u64, b'\n');
    page.put_field(most as u64, b'\n');
}

// Writes the heading to the front of `out`, or refuses where that is too short.
pub fn image_heading(most: u16, line: u16, rows: usize, out: &mut [u8]) -> Result<usize, NoRoom>
    ensures { wrote result out.new ≡ writing_text (image_heading most line rows) out.old }
{
    if out.len() < size_of_heading(most, line, rows) {
        return Err(NoRoom);
    }
    let mut page = Page { out, at: 0 };
    put_image_heading(most, line, rows, &mut page);
    Ok(page.at)
}

// How many bytes a pixel takes: one where no number is above 255, and else two.
#[tactic(auto, unfolding(crate::specs::Image::pixel_size))]
fn pixel_size(most: u16) -> usize
    ensures { result ≡ pixel_size most }
{
    if most < 256 { 1 } else { 2 }
}

// Puts a pixel's bytes: the last of its number's two, or both.
fn put_pixel(most: u16, n: u16, page: &mut Page<'_>)
    requires { Room (pixel_size most) page.old }
    ensures { Adds (pixel most n) page.old page.new }
{
    let bytes = n.to_be_bytes();
    if most < 256 {
        page.put_byte(bytes[1]);
        return;
    }
    page.put_byte(bytes[0]);
    page.put_byte(bytes[1]);
}

// Puts the numbers of `count` places, from a place on.
fn put_numbers(most: u16, memory: &[u16], from: usize, count: u16, page: &mut Page<'_>)
    requires from_in_bounds { from ≤ length memory.now }
    requires count_in_bounds { Room (length (numbers most memory.now from count)) page.old }
    ensures { Adds (numbers most memory.now from count) page.old page.new }
{
    for k in 0..count as usize {
        put_pixel(most, number_at(memory, from + k), page);
    }
}

// Where a row starts, or the memory's end if that comes first: all is 0 from there on, and the product cannot wrap.
fn row_start(line: u16, y: usize, end: usize) -> usize
    ensures { result ≡ min (y * line) end }
{
    let wide = line as usize;
    if wide == 0 {
        return 0;
    }
    if end / wide < y {
        return end;
    }
    y * wide
}

// Puts the numbers of a row.
fn put_row(most: u16, line: u16, y: usize, memory: &[u16], page: &mut Page<'_>)
    requires { Room (length (row_bytes most line memory.now y)) page.old }
    ensures { Adds (row_bytes most line memory.now y) page.old page.new }
{
    let start = row_start(line, y, memory.len());
    put_numbers(most, memory, start, line, page);
}

// Puts the rows under row `below`, downward; where there are not so many, the lowest once more for each.
fn put_rows(most: u16, line: u16, below: usize, count: usize, memory: &[u16], page: &mut Page<'_>)
    requires { Room (length (down most line memory.now below count)) page.old }
    ensures { Adds (down most line memory.now below count) page.old page.new }
{
    for k in 0..count {
        let y = below.saturating_sub(k + 1);
        put_row(most, line, y, memory, page);
    }
}

// Whether so many rows take more bytes than the room. A division asks it, since the product might wrap.
fn rows_longer(most: u16, line: u16, count: usize, room: usize) -> bool
    ensures { result ≡ ltb room (count * (pixel_size most * line)) }
{
    let row_size = pixel_size(most) * line as usize;
    if row_size == 0 {
        return false;
    }
    room / row_size < count
}

// Writes the `count` rows under row `below`, the topmost first, to the front of `out`, or refuses where that is too short.
pub fn image_rows(
    most: u16,
    line: u16,
    below: usize,
    count: usize,
    memory: &[u16],
    out: &mut [u8],
) -> Result<usize, NoRoom>
    ensures { wrote result out.new ≡ writing_text (down most line memory.now below count) out.old }
{
    if rows_longer(most, line, count, out.len()) {
        return Err(NoRoom);
    }
    let mut page = Page { out, at: 0 };
    put_rows(most, line, below, count, memory, &mut page);
    Ok(page.at)
}
