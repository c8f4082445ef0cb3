// The calls of the crate stream for a host in C. (Said again here: a static library exports the marked functions of its own crate alone.)
#![tactic(auto)]

ghost use Rattle.std.specs.Prelude.{◌≡◌};
ghost use Rattle.stream.specs.Calls.{packing, unpacking, word_count, word_entry, answer, answered};

use stream::entries;

// How many words a packed stream holds.
#[unsafe(no_mangle)]
pub extern "C" fn dextolumen_word_count(bytes: &[u8]) -> u64
    ensures { result ≡ word_count bytes.now }
{
    entries::dextolumen_word_count(bytes)
}

// The word at place k of a packed stream, counted from 0.
#[unsafe(no_mangle)]
pub extern "C" fn dextolumen_word_at(bytes: &[u8], k: usize) -> u64
    ensures { result ≡ word_entry bytes.now k }
{
    entries::dextolumen_word_at(bytes, k)
}

// Packs words into `out`, and answers how many bytes they make.
#[unsafe(no_mangle)]
pub extern "C" fn dextolumen_pack(words: &[u32], out: &mut [u8]) -> u64
    ensures { answer result out.new ≡ answered (packing words.now out.old) }
{
    entries::dextolumen_pack(words, out)
}

// Unpacks a stream into `out`, and answers how many words it holds.
#[unsafe(no_mangle)]
pub extern "C" fn dextolumen_unpack(bytes: &[u8], out: &mut [u32]) -> u64
    ensures { answer result out.new ≡ answered (unpacking bytes.now out.old) }
{
    entries::dextolumen_unpack(bytes, out)
}
