// The places of a picture that show: a line for each whose I is not 0.
ghost use Rattle.std.specs.Prelude.{◌≡◌, length, get_or, eqb, not};
ghost use Rattle.report.specs.Text.{column_of, row_of, place_of, shown};
ghost use Rattle.report.specs.Calls.{Adds, Room, Sized};

use crate::number::digits;
use crate::page::Page;

// A place of a picture, by the line length and its index, and its two numbers. Its column and its row take a division each, so that only a place that
// shows is asked for them.
#[derive(Clone, Copy)]
pub(crate) struct Place {
    line: u16,
    index: usize,
    i: u16,
    z: u16,
}

// The number at a place of a memory; 0 past its end.
pub(crate) fn number_at(memory: &[u16], place: usize) -> u16
    ensures { result ≡ get_or memory.now place 0 }
{
    memory.get(place).copied().unwrap_or(0)
}

// The column of a place.
fn column(line: u16, place: usize) -> u64
    ensures { result ≡ column_of line place }
{
    if line == 0 {
        return place as u64;
    }
    (place % (line as usize)) as u64
}

// The row of a place.
fn row(line: u16, place: usize) -> u64
    ensures { result ≡ row_of line place }
{
    if line == 0 {
        return 0;
    }
    (place / (line as usize)) as u64
}

impl Place {
    // The place with an index, where these numbers are.
    pub(crate) fn at(line: u16, index: usize, i: u16, z: u16) -> Place
        ensures { result ≡ place_of line index i z }
    {
        Place { line, index, i, z }
    }

    // Whether it has a line.
    fn shows(self) -> bool
        ensures { result ≡ not (eqb self.i 0) }
    {
        self.i != 0
    }

    // How many bytes its line takes: its four numbers, and a byte after each.
    pub(crate) fn size(self) -> usize
        ensures { Sized (shown self) 84 result }
    {
        if !self.shows() {
            return 0;
        }
        let first = digits(column(self.line, self.index)) + digits(row(self.line, self.index));
        first + digits(self.i as u64) + digits(self.z as u64) + 4
    }

    // Puts its line, if it has one.
    pub(crate) fn put(self, page: &mut Page<'_>)
        requires { Room (length (shown self)) page.old }
        ensures { Adds (shown self) page.old page.new }
    {
        if self.shows() {
            let x = column(self.line, self.index);
            let y = row(self.line, self.index);
            page.put_pair(x, y, b' ');
            page.put_pair(self.i as u64, self.z as u64, b'\n');
        }
    }
}
