// What is said of a recording on standard error: a line for each word that was dropped, and one for the whole.
ghost use Rattle.std.specs.Prelude.{◌≡◌, ◌<◌, length};
ghost use Rattle.mend.specs.Mend.{Low};

use console::say::{Ascii, say_line};
use listing::write::list;
use mending::Mended;
use stream::read::word;

// The line of a dropped word: the number that refuses it, and the line that `list` prints of it, without its end, which `say` puts.
fn say_dropped(rt: &impl Eprint, number: u8, index: u64, word: u32)
    requires { index < 4294967296 }
{
    let mut line = [0u8; 26];
    // A line has 26 bytes, its end the last, so that it fits.
    let _ = list(index as u32, &[word], &mut line);
    let text = Ascii(&line[..25]);
    say_line(rt, format_args!("refusal {number} {text}"));
}

// The lines of all words that were dropped.
pub(crate) fn say_list(rt: &impl Eprint, bytes: &[u8], indices: &[u64], numbers: &[u8])
    requires indices_len { length indices.now ≡ length numbers.now }
    requires low { Low indices.now }
{
    for (index, number) in indices.iter().zip(numbers) {
        say_dropped(rt, *number, *index, word(bytes, *index as usize));
    }
}

// The last line: how many words were kept and dropped, how many bits were cut, and whether a half byte was cleared.
pub(crate) fn say_summary(rt: &impl Eprint, kept: usize, told: Mended) {
    say_line(
        rt,
        format_args!(
            "kept {kept} dropped {} cut {} cleared {}",
            told.dropped, told.cut, told.cleared
        ),
    );
}
