// Recordings in instalments: the bytes of a packed stream are taken as they come, and each word is run once its twenty bits are there.
// specs/Instalments.antt says what each call tells and leaves. The calls are for C too (include/dextolumen.h), exported by `instalments_c`.
#![tactic(auto)]

ghost use Rattle.std.specs.Prelude.{◌≡◌, ◌^◌, ◌<◌, true, false};
ghost use Rattle.ground.specs.Refusal.{told};
ghost use Rattle.instalments.specs.Instalments.{so_far, taking, fresh, is_closed, is_word_number, is_end_number, number_fits, bits_fit, begun_fits, is_sound, word_in, bytes_in, feeding, end_number, ending};
ghost use Rattle.machine.specs.Machine.{memories};
ghost use Rattle.machine.specs.Lent.{found, left};

use chip::step::step;
use ground::{Refusal, number_of};
use registers::Registers;
use registers::word::parts;

// How far a recording has come, which is also the answer of each call: the number that refused a word or the end, 0 for none; how many words
// were run, and the sum of their counts, both modulo 2^64; the bits of a word that has not come whole, and how many they are; 1 once the
// end was told with no word refused before it, else 0; and the registers. C has the struct, so that all of them are numbers.
#[repr(C)]
#[derive(Clone, Copy)]
pub struct Intake {
    pub refusal: u64,
    pub index: u64,
    pub sum: u64,
    pub held: u32,
    pub count: u32,
    pub over: u32,
    pub registers: Registers,
}

// Before the first byte.
#[unsafe(no_mangle)]
pub extern "C" fn dextolumen_begin() -> Intake
    ensures { result ≡ fresh }
{
    Intake {
        refusal: 0,
        index: 0,
        sum: 0,
        held: 0,
        count: 0,
        over: 0,
        registers: Registers::reset(),
    }
}

// Whether it is a number that a word of a stream gets.
fn is_word_number(n: u64) -> bool
    ensures { result ≡ is_word_number n }
{
    matches!(n, 0 | 2..=10 | 14)
}

// Whether it is a number that the end tells behind so many words.
fn is_end_number(index: u64, n: u64) -> bool
    ensures { result ≡ is_end_number index n }
{
    match n {
        0 | 2 | 11 => true,
        12 => index % 2 == 1,
        _ => false,
    }
}

impl Intake {
    // Whether a word was refused, or the end was told.
    fn is_closed(&self) -> bool
        ensures { result ≡ is_closed self.now.refusal self.now.over }
    {
        self.refusal != 0 || self.over != 0
    }

    // Whether the number is a word's before the end, and the end's after it.
    fn number_fits(&self) -> bool
        ensures { result ≡ number_fits self.now.over self.now.index self.now.refusal }
    {
        match self.over {
            0 => is_word_number(self.refusal),
            1 => is_end_number(self.index, self.refusal),
            _ => false,
        }
    }

    // Whether bytes may have left the bits behind so many words: fewer than a word has, whole bytes with those of the words, and a number of no
    // more bits. A closed record holds none.
    fn bits_fit(&self) -> bool
        ensures { result ≡ bits_fit (is_closed self.now.refusal self.now.over) self.now.index self.now.held self.now.count }
    {
        if self.is_closed() {
            return self.held == 0 && self.count == 0;
        }
        let bits = 20 * (self.index % 2) + u64::from(self.count);
        self.count < 20 && (bits % 8 == 0) & (self.held >> self.count == 0)
    }

    // Whether no word was run before the first accepted INIT.
    fn begun_fits(&self) -> bool
        ensures { result ≡ begun_fits self.now.index self.now.sum self.now.registers }
    {
        self.registers.started != 0 || (self.index == 0 && self.sum == 0)
    }

    // Whether a record breaks no bound. None does that the calls from the beginning on leave.
    fn is_sound(&self) -> bool
        ensures { result ≡ is_sound self.now }
    {
        self.bits_fit()
            & self.number_fits()
            & self.begun_fits()
            & refusals::bounds::is_sound(self.registers)
    }

    // What the end tells of bits that are left over, and of memories of two lengths: 11, 12, then 2.
    fn at_end(&self, ni: usize, nz: usize) -> Result<(), Refusal>
        ensures { told result ≡ end_number self.now.held self.now.count ni nz }
    {
        if !matches!(self.count, 0 | 4) {
            return Err(Refusal::BadLength);
        }
        if self.held != 0 {
            return Err(Refusal::BadTail);
        }
        if ni != nz {
            return Err(Refusal::Unsound);
        }
        Ok(())
    }
}

// Runs a word. It answers the record either way, with the number in it: the loop hands on the whole of it, so an `Err` would have to carry it too.
fn run_word(s: Intake, w: u32, im: &mut [u16], zm: &mut [u16]) -> Intake
    requires refusal_value { s.refusal ≡ 0 }
    requires w_bound { w < 2 ^ 20 }
    ensures { so_far result (left im zm) ≡ word_in (so_far s (found im zm)) w }
{
    let (command, data) = parts(w);
    match step(s.registers, command, data, im, zm) {
        Ok(answer) => Intake {
            index: s.index.wrapping_add(1),
            sum: s.sum.wrapping_add(answer.passed),
            registers: answer.registers,
            ..s
        },
        Err(refusal) => Intake {
            refusal: refusal.into(),
            ..s
        },
    }
}

// Takes byte after byte, until a word is refused: a byte's bits come behind those that are held, and the first twenty are a word.
fn take_all(s: Intake, bytes: &[u8], im: &mut [u16], zm: &mut [u16]) -> Intake
    requires s_value { is_sound s ≡ true }
    requires over_value { is_closed s.refusal s.over ≡ false }
    ensures { taking result (left im zm) ≡ bytes_in (taking s (found im zm)) bytes.now }
{
    let mut next = s;
    let mut held = s.held;
    let mut count = s.count;
    // It counts places, as `stream`'s `bits_of` does and for the same reason.
    for k in 0..bytes.len() {
        held = held * 256 + bytes[k] as u32;
        count += 8;
        if count < 20 {
            continue;
        }
        count -= 20;
        next = run_word(next, held >> count, im, zm);
        if next.refusal != 0 {
            return Intake {
                held: 0,
                count: 0,
                over: 0,
                ..next
            };
        }
        held %= 1 << count;
    }
    Intake {
        held,
        count,
        over: 0,
        ..next
    }
}

// Takes an instalment. Before the end the answer has 0, and the words run and their sum so far; after a refused word or the end, a call
// changes nothing and answers as before. A record that breaks a bound is refused with 2.
#[unsafe(no_mangle)]
pub extern "C" fn dextolumen_feed(s: Intake, bytes: &[u8], im: &mut [u16], zm: &mut [u16]) -> Intake
    ensures { taking result (left im zm) ≡ feeding (taking s (found im zm)) bytes.now }
{
    if !s.is_sound() {
        return Intake {
            refusal: Refusal::Unsound.into(),
            ..s
        };
    }
    if s.is_closed() {
        return s;
    }
    take_all(s, bytes, im, zm)
}

// Ends a recording: no more bytes come. After a refused word or the end it changes nothing and answers as before. A record that breaks a
// bound is refused with 2.
#[unsafe(no_mangle)]
pub extern "C" fn dextolumen_finish(s: Intake, im: &[u16], zm: &[u16]) -> Intake
    ensures { taking result (memories im.now zm.now) ≡ ending (taking s (memories im.now zm.now)) }
{
    if !s.is_sound() {
        return Intake {
            refusal: Refusal::Unsound.into(),
            ..s
        };
    }
    if s.is_closed() {
        return s;
    }
    Intake {
        refusal: number_of(s.at_end(im.len(), zm.len())),
        held: 0,
        count: 0,
        over: 1,
        ..s
    }
}
