// A word with what the machine made of it, as a line of text.
ghost use Rattle.std.specs.Prelude.{◌≡◌, ◌+◌, ◌*◌, ◌<◌, take, drop};
ghost use Rattle.report.specs.Calls.{Adds, Lays, Room};
ghost use Rattle.listing.specs.Trace.{meanings, meaning_name, share, meaning_text, number_text, answer_text, traced_text, numbers_text, trace_line, watch_line};

use crate::write::{put_digits, put_name, put_text, put_word};
use report::{Base, Page, has_room};

// What a word means: a row of the table of meanings, and which of how many parameters it is, 0 of 0 where there are none. The row is a number: up to 15
// it is AUX's own, and IMG's behind those, so that an enum of 32 rows would be made of numbers only to be told by them again. Its two numbers are no flag with a value: a subcommand may want no
// parameters, so that an `Option` of the two would be made by a test for 0 where `put_share` has that test now, and taken apart there besides.
#[derive(Clone, Copy)]
pub struct Meaning {
    pub row: u64,
    pub came: u64,
    pub wanted: u64,
}

// A word with what the machine made of it: its index, what it means, the number that refuses it or 0, and how many pixels passed. Each line has both
// numbers, whatever came of the word: a `Result` would only be taken apart again.
#[derive(Clone, Copy)]
pub struct Traced {
    pub index: u64,
    pub word: u32,
    pub meaning: Meaning,
    pub refusal: u64,
    pub passed: u64,
}

// The two numbers of a pixel.
#[derive(Clone, Copy)]
pub struct Numbers {
    pub i: u16,
    pub z: u16,
}

// The meanings, each in twelve columns, in the order of their rows. (A static, as the names of write.rt.)
static MEANINGS: [[u8; 12]; 32] = [
    *b" PMODE      ",
    *b" LMODE      ",
    *b" IMODE      ",
    *b" ZCONTROL   ",
    *b" HCONTROL   ",
    *b" TPATTERN   ",
    *b" WINDOW     ",
    *b" SECTION    ",
    *b" COLOR      ",
    *b" LPATTERN   ",
    *b" MASK       ",
    *b" unmodelled ",
    *b" LSTATUS    ",
    *b" nothing    ",
    *b" load       ",
    *b" save       ",
    *b" gouraud    ",
    *b" constant   ",
    *b" line0      ",
    *b" line1      ",
    *b" line2      ",
    *b" strip      ",
    *b" fan        ",
    *b" line       ",
    *b" start      ",
    *b" intensity  ",
    *b" depth      ",
    *b" row        ",
    *b" pixelI     ",
    *b" pixelZ     ",
    *b" reserved   ",
    *b" unknown    ",
];

// A row of the table of meanings, in twelve columns. (Beside `name_of`: each looks up a table of its own, and promises what its own definition has there.)
#[tactic(auto, unfolding(crate::specs::Trace::meanings))]
fn meaning_at(row: usize) -> [u8; 12]
    requires { row < 32 }
    ensures { result ≡ take 12 (drop (12 * row) meanings) }
{
    MEANINGS[row]
}

// Puts a row of the table of meanings.
#[tactic(auto, unfolding(crate::specs::Trace::meaning_name))]
fn put_row(row: u64, page: &mut Page<'_>)
    requires { Room 12 page.old }
    ensures { Adds (meaning_name row) page.old page.new }
{
    put_text(&meaning_at((row % 32) as usize), page);
}

// Puts which of how many parameters it is.
fn put_share(came: u64, wanted: u64, page: &mut Page<'_>)
    requires { Room 3 page.old }
    ensures { Adds (share came wanted) page.old page.new }
{
    if wanted == 0 {
        put_text(b"-  ", page);
        return;
    }
    put_digits(came, Base::Ten, 1, page);
    put_text(b"/", page);
    put_digits(wanted, Base::Ten, 1, page);
}

// Puts a blank and a number of so many digits.
fn put_number(n: u64, count: usize, page: &mut Page<'_>)
    requires { Room (1 + count) page.old }
    ensures { Adds (number_text count n) page.old page.new }
{
    put_text(b" ", page);
    put_digits(n, Base::Ten, count, page);
}

// Puts the number that refuses a word, and how many pixels passed.
fn put_answer(refusal: u64, passed: u64, page: &mut Page<'_>)
    requires { Room 11 page.old }
    ensures { Adds (answer_text refusal passed) page.old page.new }
{
    put_number(refusal, 2, page);
    put_number(passed, 7, page);
}

impl Meaning {
    // Puts what a word means.
    fn put(self, page: &mut Page<'_>)
        requires { Room 15 page.old }
        ensures { Adds (meaning_text self) page.old page.new }
    {
        put_row(self.row, page);
        put_share(self.came, self.wanted, page);
    }
}

impl Traced {
    // Puts a word of any size with what the machine made of it, and no line's end, as `put_line` of write.rt puts a line.
    fn put(self, page: &mut Page<'_>)
        requires { Room 51 page.old }
        ensures { Adds (traced_text self) page.old page.new }
    {
        let mut text = [0u8; 51];
        let mut line = Page {
            out: &mut text,
            at: 0,
        };
        put_word(self.index, self.word, &mut line);
        put_name((self.word / 65536 % 16) as usize, &mut line);
        put_digits(self.word as u64, Base::Sixteen, 4, &mut line);
        self.meaning.put(&mut line);
        put_answer(self.refusal, self.passed, &mut line);
        put_text(&text, page);
    }
}

impl Numbers {
    // Puts the two numbers of a pixel.
    fn put(self, page: &mut Page<'_>)
        requires { Room 12 page.old }
        ensures { Adds (numbers_text self) page.old page.new }
    {
        put_number(self.i as u64, 5, page);
        put_number(self.z as u64, 5, page);
    }
}

// Lays the line of a word on a page; where it has no room there, it is left out.
pub fn trace_line(t: Traced, page: &mut Page<'_>)
    ensures { Lays (trace_line t) page.old page.new }
{
    if has_room(page.out.len(), 52, page.at) {
        t.put(page);
        put_text(b"\n", page);
    }
}

// Lays the line of a word with a pixel's numbers before and after it.
pub fn watch_line(t: Traced, before: Numbers, after: Numbers, page: &mut Page<'_>)
    ensures { Lays (watch_line t before after) page.old page.new }
{
    if has_room(page.out.len(), 76, page.at) {
        t.put(page);
        before.put(page);
        after.put(page);
        put_text(b"\n", page);
    }
}
