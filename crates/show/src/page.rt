// Pages of an image: texts that always fit a page of 131,072 bytes, which holds the longest row that a line length of 16 bits can make.
ghost use Rattle.std.specs.Prelude.{◌≡◌, ◌*◌, ◌/◌, ◌≤◌, ◌<◌, length};
ghost use Rattle.report.specs.Image.{image_heading, down};
ghost use Rattle.report.specs.Calls.{Stands};
ghost use Rattle.show.specs.Show.{rows_holding, rows_shown, page_rows};

use report::{drawn_places, image_heading, image_rows};

// How many whole rows fit so many places; none without a line length.
pub(crate) fn whole_rows(line: u16, places: usize) -> usize
    ensures { result ≡ places / line }
{
    if line == 0 {
        return 0;
    }
    places / (line as usize)
}

// How many rows hold so many places. (That a row has a place is asked for here and in the calls after it, each by itself: a struct for such a length would be asked for it at
// its making alone, and taken apart in each of these.)
fn rows_holding(line: u16, n: usize) -> usize
    requires { 0 < line }
    ensures { result ≡ rows_holding line n }
{
    if n == 0 {
        return 0;
    }
    (n - 1) / (line as usize) + 1
}

// The rows of an image in levels.
pub(crate) fn rows_shown(given: bool, line: u16, rows: usize, im: &[u16], zm: &[u16]) -> usize
    requires line_nonzero { 0 < line }
    requires line_in_bounds { rows * line ≤ length im.now }
    ensures { result ≡ rows_shown given line rows im.now zm.now }
{
    if given {
        return rows;
    }
    rows_holding(line, drawn_places(rows * (line as usize), im, zm))
}

// How many rows the next page has.
pub(crate) fn page_rows(line: u16, below: usize) -> usize
    requires { 0 < line }
    ensures { result ≡ page_rows line below }
{
    below.min(131072 / (2 * (line as usize)))
}

// The heading on a page. It always fits.
pub(crate) fn put_heading(most: u16, line: u16, rows: usize, page: &mut [u8; 131072]) -> usize
    ensures { Stands (image_heading most line rows) page.old page.new result }
{
    image_heading(most, line, rows, page).unwrap()
}

// The next rows of a memory on a page, no more than fit.
pub(crate) fn put_page(
    most: u16,
    line: u16,
    below: usize,
    count: usize,
    memory: &[u16],
    page: &mut [u8; 131072],
) -> usize
    requires { count * (2 * line) ≤ 131072 }
    ensures { Stands (down most line memory.now below count) page.old page.new result }
{
    image_rows(most, line, below, count, memory, page).unwrap()
}
