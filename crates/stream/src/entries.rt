// The entries for the host program in C. Refusing, each answers 2^63 plus the refusal number.
ghost use Rattle.std.specs.Prelude.{◌≡◌, ◌+◌};
ghost use Rattle.ground.specs.Refusal.{encoded};
ghost use Rattle.stream.specs.Calls.{packing, unpacking, word_count, word_entry, answer, answered};

use crate::read::{checked, held, unpack, word};
use crate::write::pack;
use ground::{Refusal, encoded};

// How many words a packed stream holds, or why it is none.
#[tactic(auto, using(crate::proofs::Calls::count_refused, crate::proofs::Calls::count_good), unfolding(crate::specs::Calls::entry))]
fn count(bytes: &[u8]) -> Result<usize, Refusal>
    ensures { encoded result ≡ word_count bytes.now }
{
    checked(bytes)?;
    Ok(held(bytes))
}

// The word at place k of a packed stream, counted from 0, or why there is none.
#[tactic(auto, using(crate::proofs::Calls::word_refused, crate::proofs::Calls::word_past, crate::proofs::Calls::word_good), unfolding(crate::specs::Calls::entry))]
fn find(bytes: &[u8], k: usize) -> Result<usize, Refusal>
    ensures { encoded result ≡ word_entry bytes.now k }
{
    checked(bytes)?;
    if held(bytes) <= k {
        return Err(Refusal::NoRoom);
    }
    Ok(word(bytes, k) as usize)
}

// How many words a packed stream holds.
#[unsafe(no_mangle)]
pub extern "C" fn dextolumen_word_count(bytes: &[u8]) -> u64
    ensures { result ≡ word_count bytes.now }
{
    encoded(count(bytes))
}

// The word at place k of a packed stream, counted from 0.
#[unsafe(no_mangle)]
pub extern "C" fn dextolumen_word_at(bytes: &[u8], k: usize) -> u64
    ensures { result ≡ word_entry bytes.now k }
{
    encoded(find(bytes, k))
}

// Packs words into `out`, and answers how many bytes they make.
#[unsafe(no_mangle)]
pub extern "C" fn dextolumen_pack(words: &[u32], out: &mut [u8]) -> u64
    ensures { answer result out.new ≡ answered (packing words.now out.old) }
{
    encoded(pack(words, out))
}

// Unpacks a stream into `out`, and answers how many words it holds. (Like `dextolumen_pack` but for the types: C has both by name, and no generic function.)
#[unsafe(no_mangle)]
pub extern "C" fn dextolumen_unpack(bytes: &[u8], out: &mut [u32]) -> u64
    ensures { answer result out.new ≡ answered (unpacking bytes.now out.old) }
{
    encoded(unpack(bytes, out))
}
