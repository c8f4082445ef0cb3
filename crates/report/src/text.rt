// The whole text: first whether it fits, so that a short buffer stays untouched, and then its bytes.
ghost use Rattle.std.specs.Prelude.{◌≡◌, length, ltb};
ghost use Rattle.report.specs.Text.{lines, report};
ghost use Rattle.report.specs.Calls.{Adds, Room, wrote, writing};

use crate::NoRoom;
use crate::heading::Heading;
use crate::page::Page;
use crate::place::{Place, number_at};

// Whether the text is longer than the room. The size never grows past the room, so no sum of sizes can wrap.
fn is_longer(heading: Heading, line: u16, im: &[u16], zm: &[u16], room: usize) -> bool
    ensures { result ≡ ltb room (length (report heading.words heading.refusal heading.passed line im.now zm.now)) }
{
    let mut size = heading.size();
    if room < size {
        return true;
    }
    for (place, i) in im.iter().enumerate() {
        let more = Place::at(line, place, *i, number_at(zm, place)).size();
        if room - size < more {
            return true;
        }
        size += more;
    }
    false
}

// Puts the lines of all places.
fn put_lines(line: u16, im: &[u16], zm: &[u16], page: &mut Page<'_>)
    requires { Room (length (lines line im.now zm.now (length im.now))) page.old }
    ensures { Adds (lines line im.now zm.now (length im.now)) page.old page.new }
{
    for (place, i) in im.iter().enumerate() {
        Place::at(line, place, *i, number_at(zm, place)).put(page);
    }
}

// Writes the text to the front of `out`, or refuses where that is too short. (The numbers stand side by side, as in `writing` and in docs/CALLS.md: `Heading` has three of them
// inside.)
pub fn write(
    words: u64,
    refusal: u64,
    passed: u64,
    line: u16,
    im: &[u16],
    zm: &[u16],
    out: &mut [u8],
) -> Result<usize, NoRoom>
    ensures { wrote result out.new ≡ writing words refusal passed line im.now zm.now out.old }
{
    let heading = Heading {
        words,
        refusal,
        passed,
    };
    if is_longer(heading, line, im, zm, out.len()) {
        return Err(NoRoom);
    }
    let mut page = Page { out, at: 0 };
    heading.put(&mut page);
    put_lines(line, im, zm, &mut page);
    Ok(page.at)
}
