// The lines of the report, put on its page.
ghost use Rattle.std.specs.Prelude.{◌≡◌, ◌≤◌, length};
ghost use Rattle.report.specs.Calls.{Adds, Room};
ghost use Rattle.ground.specs.Refusal.{number};
ghost use Rattle.tally.specs.Tally.{EachWithin};
ghost use Rattle.tally.specs.Overdraw.{entered};
ghost use Rattle.overdraw.specs.Text.{glyph, front, columns, percent_of, name_of, heading, numbers, count_line, tally_lines, refusal_line, too_long_line, entry_lines};

use ground::Refusal;
use report::Page;
use tally::{Count, Entry, Stop, Tally};

// Puts a text, for which there is room. (So has listing: report's public calls ask for nothing, so that who knows of the room says it in a call of its own.)
fn put_text(text: &[u8], page: &mut Page<'_>)
    requires { Room (length text.now) page.old }
    ensures { Adds text.now page.old page.new }
{
    page.lay(text);
}

// The last digit of a number, or a blank where nothing is left of it.
#[tactic(auto, unfolding(crate::specs::Text::glyph))]
fn glyph_of(n: u64) -> u8
    ensures { result ≡ glyph n }
{
    if n == 0 {
        return b' ';
    }
    b'0' + (n % 10) as u8
}

// Puts a number into `width` columns, as it stands in front of another digit. The digits come from the last to the first, so that one division finds
// each. (report's `lay_digits` lays zeros where this puts blanks: to call it, the digits would have to be counted first.)
fn put_front(n: u64, width: usize, page: &mut Page<'_>)
    requires { Room width page.old }
    ensures { Adds (front width n) page.old page.new }
{
    let mut rest = n;
    for k in (0..width).rev() {
        page.out[page.at + k] = glyph_of(rest);
        rest /= 10;
    }
    page.at += width;
}

// Puts a number into `width` columns.
fn put_columns(n: u64, width: usize, page: &mut Page<'_>)
    requires le_width { 1 ≤ width }
    requires width_in_bounds { Room width page.old }
    ensures { Adds (columns width n) page.old page.new }
{
    put_front(n / 10, width - 1, page);
    put_text(&[b'0' + (n % 10) as u8], page);
}

// The share that is hidden. (What is asked of `hidden` is said again of each count on its way here: so many, times a hundred, is still a number of 64 bits.)
#[tactic(auto, using(crate::proofs::Lines::percent_none), unfolding(crate::specs::Text::percent_of))]
fn percent(c: Count) -> u64
    requires { c.hidden ≤ 100000000000000000 }
    ensures { result ≡ percent_of c }
{
    if c.offered == 0 {
        return 0;
    }
    c.hidden * 100 / c.offered
}

// A file's name, in six columns. (Digit by digit, as `name_of` of specs/Text.antt has it.)
pub(crate) fn name_of(k: u64) -> [u8; 6]
    ensures { result ≡ name_of k }
{
    [
        b'0' + (k / 100 % 10) as u8,
        b'0' + (k / 10 % 10) as u8,
        b'0' + (k % 10) as u8,
        b' ',
        b' ',
        b' ',
    ]
}

// Puts the heading.
#[tactic(auto, unfolding(crate::specs::Text::heading))]
pub(crate) fn put_heading(page: &mut Page<'_>)
    requires { Room 79 page.old }
    ensures { Adds heading page.old page.new }
{
    put_text(
        b"file  kind     figures         offered          passed          hidden percent\n",
        page,
    );
}

// Puts the numbers of a count.
fn put_numbers(c: Count, page: &mut Page<'_>)
    requires hidden_bound { c.hidden ≤ 100000000000000000 }
    requires at_in_bounds { Room 64 page.old }
    ensures { Adds (numbers c) page.old page.new }
{
    put_columns(c.figures, 8, page);
    put_columns(c.offered, 16, page);
    put_columns(c.passed, 16, page);
    put_columns(c.hidden, 16, page);
    put_columns(percent(c), 8, page);
}

// Puts the line of a kind.
fn put_count(name: [u8; 6], kind: [u8; 8], c: Count, page: &mut Page<'_>)
    requires hidden_bound { c.hidden ≤ 100000000000000000 }
    requires at_in_bounds { Room 79 page.old }
    ensures { Adds (count_line name kind c) page.old page.new }
{
    put_text(&name, page);
    put_text(&kind, page);
    put_numbers(c, page);
    put_text(b"\n", page);
}

// Puts a line a kind.
pub(crate) fn put_tally(name: [u8; 6], t: Tally, page: &mut Page<'_>)
    requires each_within { EachWithin 3276000 t }
    requires at_in_bounds { Room 395 page.old }
    ensures { Adds (tally_lines name t) page.old page.new }
{
    put_count(name, *b"gouraud ", t.gouraud, page);
    put_count(name, *b"constant", t.constant, page);
    put_count(name, *b"line0   ", t.line0, page);
    put_count(name, *b"line1   ", t.line1, page);
    put_count(name, *b"line2   ", t.line2, page);
}

// Puts the line of a refusal.
fn put_refusal(name: [u8; 6], refusal: Refusal, page: &mut Page<'_>)
    requires { Room 23 page.old }
    ensures { Adds (refusal_line name (number refusal)) page.old page.new }
{
    put_text(&name, page);
    put_text(b"refusal ", page);
    put_columns(refusal.into(), 8, page);
    put_text(b"\n", page);
}

// Puts the line of a recording that is too long.
fn put_too_long(name: [u8; 6], page: &mut Page<'_>)
    requires { Room 15 page.old }
    ensures { Adds (too_long_line name) page.old page.new }
{
    put_text(&name, page);
    put_text(b"too long", page);
    put_text(b"\n", page);
}

// Puts the lines of a recording that was not run to its end.
fn put_stopped(name: [u8; 6], tally: Tally, why: Stop, page: &mut Page<'_>)
    requires each_within { EachWithin 3276 tally }
    requires at_in_bounds { Room 418 page.old }
    ensures { Adds (entry_lines name (entered (record { outcome = Err why; tally = tally }))) page.old page.new }
{
    match why {
        Stop::TooLong => put_too_long(name, page),
        Stop::Refused(refusal) => {
            put_tally(name, tally, page);
            put_refusal(name, refusal, page);
        }
    }
}

// Puts the lines of a recording.
pub(crate) fn put_entry(name: [u8; 6], e: Entry, page: &mut Page<'_>)
    requires each_within { EachWithin 3276 e.tally }
    requires at_in_bounds { Room 418 page.old }
    ensures { Adds (entry_lines name (entered e)) page.old page.new }
{
    match e.outcome {
        Ok(()) => put_tally(name, e.tally, page),
        Err(why) => put_stopped(name, e.tally, why, page),
    }
}
