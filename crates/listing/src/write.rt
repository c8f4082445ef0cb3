// Words to text: a line for each.
ghost use Rattle.std.specs.Prelude.{◌≡◌, ◌*◌, ◌<◌, length, take, drop};
ghost use Rattle.report.specs.Text.{last_digits, radix};
ghost use Rattle.report.specs.Calls.{Adds, Room, wrote, writing_text};
ghost use Rattle.listing.specs.Text.{name_of, placed, line, lines, listing};

use report::{Base, NoRoom, Page};

// The names of the commands 0 to F hex, each in six columns. (A static, since a constant would be made anew on the stack at each word.)
static NAMES: [[u8; 6]; 16] = [
    *b" PTRN ", *b" I    ", *b" Z    ", *b" Y    ", *b" X    ", *b" T1X  ", *b" T2X  ", *b" RSVD ",
    *b" LX   ", *b" IMG  ", *b" ADDR ", *b" PX   ", *b" RSVD ", *b" PARM ", *b" AUX  ", *b" INIT ",
];

// A command's name, in six columns.
#[tactic(auto, unfolding(crate::specs::Text::name_of, crate::specs::Text::names))]
fn name_of(command: usize) -> [u8; 6]
    requires { command < 16 }
    ensures { result ≡ name_of command }
{
    NAMES[command]
}

// Puts a text, for which there is room. (So has overdraw, where it says why.)
pub(crate) fn put_text(text: &[u8], page: &mut Page<'_>)
    requires { Room (length text.now) page.old }
    ensures { Adds text.now page.old page.new }
{
    page.lay(text);
}

// Puts the last `count` digits of a number, for which there is room.
pub(crate) fn put_digits(n: u64, base: Base, count: usize, page: &mut Page<'_>)
    requires { Room count page.old }
    ensures { Adds (last_digits (radix base) count n) page.old page.new }
{
    page.lay_digits(n, base, count);
}

// Puts a command's name.
pub(crate) fn put_name(command: usize, page: &mut Page<'_>)
    requires command_bound { command < 16 }
    requires at_in_bounds { Room 6 page.old }
    ensures { Adds (name_of command) page.old page.new }
{
    put_text(&name_of(command), page);
}

// Puts a word, and the index that its remark begins with.
pub(crate) fn put_word(index: u64, word: u32, page: &mut Page<'_>)
    requires { Room 15 page.old }
    ensures { Adds (placed index word) page.old page.new }
{
    put_digits(word as u64, Base::Sixteen, 5, page);
    put_text(b" # ", page);
    put_digits(index, Base::Ten, 7, page);
}

// Puts the line of a word, of any size: its name is that of the low four bits of its command. Its parts are laid on a page of its own, of which the room is known
// when this is compiled, and the line as one text.
fn put_line(index: u64, word: u32, page: &mut Page<'_>)
    requires { Room 26 page.old }
    ensures { Adds (line index word) page.old page.new }
{
    let mut text = [0u8; 26];
    let mut line = Page {
        out: &mut text,
        at: 0,
    };
    put_word(index, word, &mut line);
    put_name((word / 65536 % 16) as usize, &mut line);
    put_digits(word as u64, Base::Sixteen, 4, &mut line);
    put_text(b"\n", &mut line);
    put_text(&text, page);
}

// Puts the lines of all words.
fn put_lines(from: u32, words: &[u32], page: &mut Page<'_>)
    requires { Room (length words.now * 26) page.old }
    ensures { Adds (lines from words.now (length words.now)) page.old page.new }
{
    for (k, word) in words.iter().enumerate() {
        put_line(from as u64 + k as u64, *word, page);
    }
}

// Writes the lines of some words to the front of `out`, or refuses where that is too short. The first word's index is `from`, so that a
// long recording can be written in pieces.
pub fn list(from: u32, words: &[u32], out: &mut [u8]) -> Result<usize, NoRoom>
    ensures { wrote result out.new ≡ writing_text (listing from words.now) out.old }
{
    if out.len() / 26 < words.len() {
        return Err(NoRoom);
    }
    let mut page = Page { out, at: 0 };
    put_lines(from, words, &mut page);
    Ok(page.at)
}
