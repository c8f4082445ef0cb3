// Streams read: what is wrong with one, the words that it holds, and all of them at once.
ghost use Rattle.std.specs.Prelude.{◌≡◌, ◌+◌, ◌*◌, ◌/◌, ◌≤◌, ◌<◌, length, get_or, take, drop};
ghost use Rattle.std.proofs.lemmas.List.Edits.{sets};
ghost use Rattle.ground.specs.Refusal.{told};
ghost use Rattle.stream.specs.Format.{unpack_of, word_at};
ghost use Rattle.stream.specs.Calls.{bad_length, bad_tail, checked, over, coded_told, unpacking};

use crate::word::{high_word, low_word};
use ground::Refusal;

// Whether a stream's length is that of no whole number of words.
#[tactic(auto, unfolding(crate::specs::Calls::bad_length))]
fn is_cut(bytes: &[u8]) -> bool
    ensures { result ≡ bad_length bytes.now }
{
    matches!(bytes.len() % 5, 1 | 2 | 4)
}

// Whether an odd stream's last half byte is not 0.
#[tactic(auto, unfolding(crate::specs::Calls::bad_tail))]
fn has_tail(bytes: &[u8]) -> bool
    ensures { result ≡ bad_tail bytes.now }
{
    bytes.len() % 5 == 3 && bytes[bytes.len() - 1] & 15 != 0
}

// A stream's own checks: its length, then its last half byte.
#[tactic(auto, unfolding(crate::specs::Calls::checked))]
pub fn checked(bytes: &[u8]) -> Result<(), Refusal>
    ensures { told result ≡ checked bytes.now 0 }
{
    if is_cut(bytes) {
        return Err(Refusal::BadLength);
    }
    if has_tail(bytes) {
        return Err(Refusal::BadTail);
    }
    Ok(())
}

// How many whole words stand in the bytes, good stream or not.
#[tactic(auto, using(crate::proofs::Stream::length_unpack))]
pub fn held(bytes: &[u8]) -> usize
    ensures { result ≡ length (unpack_of bytes.now) }
{
    bytes.len() * 2 / 5
}

// The first word from byte i on. (Beside `low_at`: other bytes, and another share of the third; one function of both would have to ask which.)
#[tactic(auto, using(crate::proofs::Stream::word_high))]
fn high_at(bytes: &[u8], i: usize) -> u32
    requires { i + 3 ≤ length bytes.now }
    ensures { result ≡ word_at (drop i bytes.now) 0 }
{
    high_word(bytes[i], bytes[i + 1], bytes[i + 2])
}

// The second word from byte i on.
#[tactic(auto, using(crate::proofs::Stream::word_low))]
fn low_at(bytes: &[u8], i: usize) -> u32
    requires { i + 5 ≤ length bytes.now }
    ensures { result ≡ word_at (drop i bytes.now) 1 }
{
    low_word(bytes[i + 2], bytes[i + 3], bytes[i + 4])
}

// The word at place k, counted from 0, of a stream that may be damaged; 0 past the last whole word. (No Option: `word_at` of specs/Format.antt, which the promises cite, tells 0 there.)
#[tactic(auto, using(crate::proofs::Stream::length_unpack, crate::proofs::Stream::word_past, crate::proofs::Stream::word_there))]
pub fn word(bytes: &[u8], k: usize) -> u32
    ensures { result ≡ word_at bytes.now k }
{
    if held(bytes) <= k {
        return 0;
    }
    let i = 5 * (k / 2);
    if k % 2 == 0 {
        return high_at(bytes, i);
    }
    low_at(bytes, i)
}

// The first two words from byte i on, stored at place k.
fn put_pair(bytes: &[u8], i: usize, out: &mut [u32], k: usize)
    requires i_in_bounds { i + 5 ≤ length bytes.now }
    requires k_in_bounds { k + 2 ≤ length out.old }
    ensures { out.new ≡ sets out.old k (take 2 (unpack_of (drop i bytes.now))) }
{
    let x = u32::from_be_bytes([bytes[i], bytes[i + 1], bytes[i + 2], bytes[i + 3]]);
    out[k] = x / 4096;
    out[k + 1] = x % 4096 * 256 + u32::from(bytes[i + 4]);
}

// The first word from byte i on, stored at place k.
fn put_last(bytes: &[u8], i: usize, out: &mut [u32], k: usize)
    requires i_in_bounds { i + 3 ≤ length bytes.now }
    requires k_in_bounds { k + 1 ≤ length out.old }
    ensures { out.new ≡ sets out.old k (take 1 (unpack_of (drop i bytes.now))) }
{
    out[k] = high_at(bytes, i);
}

// The words of a stream, over the front of `out`.
fn unpack_all(bytes: &[u8], out: &mut [u32])
    requires { length bytes.now * 2 / 5 ≤ length out.old }
    ensures { out.new ≡ over (unpack_of bytes.now) out.old }
{
    let pairs = bytes.len() / 5;
    for j in 0..pairs {
        put_pair(bytes, 5 * j, out, 2 * j);
    }
    if 3 <= bytes.len() % 5 {
        put_last(bytes, 5 * pairs, out, 2 * pairs);
    }
}

// Unpacks a stream into `out`, or refuses: the length, then the last half byte, then the room.
#[tactic(auto, using(crate::proofs::Stream::length_unpack, crate::proofs::Calls::unpack_flaw, crate::proofs::Calls::unpack_short, crate::proofs::Calls::unpack_done))]
pub fn unpack(bytes: &[u8], out: &mut [u32]) -> Result<usize, Refusal>
    ensures { coded_told result out.new ≡ unpacking bytes.now out.old }
{
    checked(bytes)?;
    let n = held(bytes);
    if out.len() < n {
        return Err(Refusal::NoRoom);
    }
    unpack_all(bytes, out);
    Ok(n)
}
