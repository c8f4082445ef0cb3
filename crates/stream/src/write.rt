// Streams written.
ghost use Rattle.std.specs.Prelude.{◌≡◌, ◌+◌, ◌*◌, ◌/◌, ◌%◌, ◌≤◌, [], ◌∷◌, ◌++◌, length, take, fold, bit_or};
ghost use Rattle.std.specs.Int.{w32, w64, to_be_bytes, to_le_bytes};
ghost use Rattle.std.proofs.lemmas.List.Edits.{sets};
ghost use Rattle.stream.specs.Format.{pack_of, fit};
ghost use Rattle.stream.specs.Calls.{over, coded_told, packing};

use crate::word::{group_front, low_byte, pair_front, seam};
use ground::Refusal;

// The bits that are set in any of the words. (No early end: so the loop takes many words at once. It counts places: a slice's iterator answers an
// `Option` of a reference, which is laid out otherwise where addresses have another size, and web/build compiles this code for such a processor.)
fn bits_of(words: &[u32]) -> u32
    ensures { result ≡ fold bit_or 0 words.now }
{
    let mut set = 0;
    for k in 0..words.len() {
        set |= words[k];
    }
    set
}

// Whether each word has at most 20 bits: no bit above the twentieth is set in any.
fn all_fit(words: &[u32]) -> bool
    ensures { result ≡ fit 20 words.now }
{
    bits_of(words) < 1 << 20
}

// The four bytes of a number, the highest first, stored at place k. (Not by `copy_from_slice`: std's copy asks by addresses whether memories overlap, and the
// code of an archive is compiled for processors with addresses of another size too.)
fn put_four(x: u32, out: &mut [u8], k: usize)
    requires { k + 4 ≤ length out.old }
    ensures { out.new ≡ sets out.old k (to_be_bytes w32 x) }
{
    let [a, b, c, d] = x.to_be_bytes();
    out[k] = a;
    out[k + 1] = b;
    out[k + 2] = c;
    out[k + 3] = d;
}

// The eight bytes of a number, the lowest first, stored at place k. It stands by itself so that the compiler makes one store of them. (No one function over N
// bytes: a loop, its invariant and a law in place of twelve stores are no plainer.)
fn put_lowest(x: u64, out: &mut [u8], k: usize)
    requires { k + 8 ≤ length out.old }
    ensures { out.new ≡ sets out.old k (to_le_bytes w64 x) }
{
    let [a, b, c, d, e, f, g, h] = x.to_le_bytes();
    out[k] = a;
    out[k + 1] = b;
    out[k + 2] = c;
    out[k + 3] = d;
    out[k + 4] = e;
    out[k + 5] = f;
    out[k + 6] = g;
    out[k + 7] = h;
}

// The same, the highest first. The compiler makes one instruction of turning them round.
fn put_eight(x: u64, out: &mut [u8], k: usize)
    requires { k + 8 ≤ length out.old }
    ensures { out.new ≡ sets out.old k (to_be_bytes w64 x) }
{
    put_lowest(u64::from_le_bytes(x.to_be_bytes()), out, k);
}

// The bytes of four words, stored at place k. They are ten, so that one store of eight has all but two of them.
fn put_group(a: u32, b: u32, c: u32, d: u32, out: &mut [u8], k: usize)
    requires { k + 10 ≤ length out.old }
    ensures { out.new ≡ sets out.old k (pack_of (a ∷ b ∷ c ∷ d ∷ [])) }
{
    put_eight(group_front(a, b, c, d), out, k);
    out[k + 8] = low_byte(d >> 8);
    out[k + 9] = low_byte(d);
}

// The bytes of two words, stored at place k.
fn put_pair(v: u32, w: u32, out: &mut [u8], k: usize)
    requires { k + 5 ≤ length out.old }
    ensures { out.new ≡ sets out.old k (pack_of (v ∷ w ∷ [])) }
{
    put_four(pair_front(v, w), out, k);
    out[k + 4] = low_byte(w);
}

// The bytes of a last word, stored at place k.
fn put_last(v: u32, out: &mut [u8], k: usize)
    requires { k + 3 ≤ length out.old }
    ensures { out.new ≡ sets out.old k (pack_of (v ∷ [])) }
{
    out[k] = low_byte(v >> 12);
    out[k + 1] = low_byte(v >> 4);
    out[k + 2] = seam(v, 0);
}

// The bytes of all whole groups of four words, over the front of `out`. All packing that takes time is this loop: at most three words are left over.
// (That there is room stands in three contracts from here on: it is a fact of the two slices that are lent, which a type would lend again.)
fn pack_groups(words: &[u32], out: &mut [u8])
    requires { (length words.now * 5 + 1) / 2 ≤ length out.old }
    ensures { out.new ≡ over (take (10 * (length words.now / 4)) (pack_of words.now)) out.old }
{
    for j in 0..words.len() / 4 {
        let i = 4 * j;
        put_group(
            words[i],
            words[i + 1],
            words[i + 2],
            words[i + 3],
            out,
            10 * j,
        );
    }
}

// The bytes of all whole pairs of words, over the front of `out`: the groups of four, and the pair that they may leave over.
fn pack_pairs(words: &[u32], out: &mut [u8])
    requires { (length words.now * 5 + 1) / 2 ≤ length out.old }
    ensures { out.new ≡ over (take (5 * (length words.now / 2)) (pack_of words.now)) out.old }
{
    pack_groups(words, out);
    let pairs = words.len() / 2;
    if pairs % 2 == 1 {
        let j = pairs - 1;
        let i = 2 * j;
        put_pair(words[i], words[i + 1], out, 5 * j);
    }
}

// The stream of the words, over the front of `out`: the pairs, and the word that they may leave over.
fn pack_all(words: &[u32], out: &mut [u8])
    requires { (length words.now * 5 + 1) / 2 ≤ length out.old }
    ensures { out.new ≡ over (pack_of words.now) out.old }
{
    pack_pairs(words, out);
    if words.len() % 2 == 1 {
        let j = words.len() / 2;
        put_last(words[2 * j], out, 5 * j);
    }
}

// Packs words into `out`, or refuses: a word of more than 20 bits, then the room.
#[tactic(auto, using(crate::proofs::Calls::pack_large, crate::proofs::Calls::pack_short, crate::proofs::Calls::pack_done, crate::proofs::Stream::length_pack))]
pub fn pack(words: &[u32], out: &mut [u8]) -> Result<usize, Refusal>
    ensures { coded_told result out.new ≡ packing words.now out.old }
{
    if !all_fit(words) {
        return Err(Refusal::BadWord);
    }
    let n = (words.len() * 5).div_ceil(2);
    if out.len() < n {
        return Err(Refusal::NoRoom);
    }
    pack_all(words, out);
    Ok(n)
}
