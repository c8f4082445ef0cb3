// A pair of words and its five bytes: the word above takes two bytes and a high half, the word below a low half and two bytes.
ghost use Rattle.std.specs.Prelude.{◌≡◌, ◌+◌, ◌*◌, ◌/◌, ◌%◌, [], ◌∷◌, ◌++◌, take, drop};
ghost use Rattle.stream.specs.Format.{bits, number, joined};
ghost use Rattle.stream.specs.Loops.{pair_front, group_front};

// The word in two bytes and the high half of a third.
#[tactic(auto, using(crate::proofs::Masks::high_word))]
pub(crate) fn high_word(a: u8, b: u8, c: u8) -> u32
    ensures { result ≡ number (take 20 (joined 8 (a ∷ b ∷ c ∷ []))) }
{
    ((a as u32) << 12) | ((b as u32) << 4) | ((c as u32) >> 4)
}

// The word in the low half of a byte and two more.
#[tactic(auto, using(crate::proofs::Masks::low_word))]
pub(crate) fn low_word(c: u8, d: u8, e: u8) -> u32
    ensures { result ≡ number (drop 4 (joined 8 (c ∷ d ∷ e ∷ []))) }
{
    (((c as u32) & 15) << 16) | ((d as u32) << 8) | (e as u32)
}

// The last eight bits.
#[tactic(auto, using(crate::proofs::Masks::low_byte))]
pub(crate) fn low_byte(x: u32) -> u8
    ensures { result ≡ number (bits 8 x) }
{
    (x & 0xff) as u8
}

// The byte in which the last four bits of a word meet the first four of the next.
#[tactic(auto, using(crate::proofs::Masks::seam_byte))]
pub(crate) fn seam(v: u32, w: u32) -> u8
    ensures { result ≡ number (bits 4 v ++ bits 4 (w / 65536)) }
{
    (((v & 15) << 4) | ((w >> 16) & 15)) as u8
}

// The first 32 bits of two words: all of the word above, and 12 of the word below.
pub(crate) fn pair_front(v: u32, w: u32) -> u32
    ensures { result ≡ pair_front v w }
{
    ((v & 0xfffff) << 12) | ((w >> 8) & 0xfff)
}

// The first 64 bits of four words: all of three, and four of the last.
#[tactic(auto, using(crate::proofs::Masks::group_front_lem))]
pub(crate) fn group_front(a: u32, b: u32, c: u32, d: u32) -> u64
    ensures { result ≡ group_front a b c d }
{
    (((a as u64) & 0xfffff) << 44)
        | (((b as u64) & 0xfffff) << 24)
        | (((c as u64) & 0xfffff) << 4)
        | (((d as u64) >> 16) & 15)
}
