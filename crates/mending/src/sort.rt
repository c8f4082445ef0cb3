// The words of a damaged recording, sorted: those that are kept make a stream, and those that are dropped a list. Nothing is drawn, since a word
// gets the same number over any two memories of one length. A first pass counts, so that the second one writes only where there is room.
ghost use Rattle.std.specs.Prelude.{◌≡◌, true, Option, ◌+◌, ◌*◌, ◌/◌, ◌%◌, ◌≤◌, ◌<◌, [], ◌∷◌, length, set};
ghost use Rattle.ground.specs.Refusal.{told, number};
ghost use Rattle.stream.specs.Format.{fit};
ghost use Rattle.chip.specs.Promises.{registers_in};
ghost use Rattle.mending.specs.Mend.{kept_of};
ghost use Rattle.mending.specs.Sort.{Judged, put_waiting, Waits, word_in, next_waiting, Room, Sorts};

use chip::step::{Answer, step};
use ground::Refusal;
use registers::Registers;
use registers::word::parts;
use stream::read::{held, word};
use stream::write::pack;

// A word of 20 bits, tried on memories without places: what refuses it, or the registers after it.
fn tried(r: Registers, word: u32) -> Result<Answer, Refusal>
    requires { word < 1048576 }
    ensures { Judged r word (told result) (registers_in r result) }
{
    let (command, data) = parts(word);
    step(r, command, data, &mut [], &mut [])
}

// How many words are kept.
pub(crate) fn kept(bytes: &[u8]) -> usize
    ensures { result ≡ length (kept_of bytes.now 0) }
{
    let mut r = Registers::reset();
    let mut j = 0;
    for k in 0..held(bytes) {
        if let Ok(answer) = tried(r, word(bytes, k)) {
            r = answer.registers;
            j += 1;
        }
    }
    j
}

// Packs words behind the pairs before them: where j is odd, the last of j kept words waits, and is the first of these.
fn put_words(words: &[u32], j: usize, out: &mut [u8])
    requires odd { j % 2 ≡ 1 }
    requires words_value { fit 20 words.now ≡ true }
    requires words_in_bounds { 5 * (j / 2) + (length words.now * 5 + 1) / 2 ≤ length out.old }
    ensures { out.new ≡ put_waiting words.now j out.old }
{
    // There is room, and each word has 20 bits (both are asked for): nothing is refused, and the length that is told is known.
    let _ = pack(words, &mut out[5 * (j / 2)..]);
}

// Keeps a word behind j others: it waits for the next, or is packed with the one that waited for it.
fn put_kept(waiting: Option<u32>, word: u32, j: usize, out: &mut [u8]) -> Option<u32>
    requires waits { Waits waiting j }
    requires words_in_bounds { j % 2 ≡ 1 → 5 * (j / 2) + 5 ≤ length out.old }
    requires words_value { fit 20 (word_in waiting ∷ word ∷ []) ≡ true }
    ensures stream { out.new ≡ put_waiting (word_in waiting ∷ word ∷ []) j out.old }
    ensures next { result ≡ next_waiting waiting word }
{
    let Some(first) = waiting else {
        return Some(word);
    };
    put_words(&[first, word], j, out);
    None
}

// Lists a dropped word.
fn put_dropped(index: usize, refusal: Refusal, d: usize, indices: &mut [u64], numbers: &mut [u8])
    requires d_in_bounds { d < length indices.old }
    requires d_in_bounds_2 { d < length numbers.old }
    ensures { (indices.new ≡ set indices.old d index) × (numbers.new ≡ set numbers.old d (number refusal)) }
{
    indices[d] = index as u64;
    numbers[d] = u64::from(refusal) as u8;
}

// Writes the stream of the words that are kept, and the list of those that are dropped. (The list is two memories, as C lends them.)
pub(crate) fn sort(bytes: &[u8], out: &mut [u8], indices: &mut [u64], numbers: &mut [u8])
    requires { Room bytes.now out.old indices.old numbers.old }
    ensures { Sorts bytes out indices numbers }
{
    let mut r = Registers::reset();
    let mut waiting = None;
    let mut j = 0;
    let mut d = 0;
    for k in 0..held(bytes) {
        let w = word(bytes, k);
        match tried(r, w) {
            Ok(answer) => {
                r = answer.registers;
                waiting = put_kept(waiting, w, j, out);
                j += 1;
            }
            Err(refusal) => {
                put_dropped(k, refusal, d, indices, numbers);
                d += 1;
            }
        }
    }
    if let Some(last) = waiting {
        put_words(&[last], j, out);
    }
}
