// Text to words, byte by byte: a text may come in pieces.
ghost use Rattle.std.specs.Prelude.{◌≡◌, ◌<◌, SomeIff};
ghost use Rattle.listing.specs.Reading.{digit_of, is_end, lined, grown, passed, passed_in, remarked};
ghost use Rattle.listing.specs.Reading.{reading, stored, closed, in_words, taken, at_start, read_on};

// What the next byte is part of; or why reading has stopped: something that is no word of five digits, or a word more than the buffer has
// room for. These two are moods and no errors, since whoever reads a text in pieces goes on with the reader that has stopped, for its line and its
// words: an `Err` would need both beside it.
#[derive(Clone, Copy, Debug, PartialEq, Eq)]
pub enum Mood {
    Words,
    Remark,
    NotWord,
    NoRoom,
}

// How far reading has come: the digits of the word that has begun and how many they are, how many words are stored, and the number of
// the line, from 1 on.
#[derive(Clone, Copy, Debug, PartialEq, Eq)]
pub struct Reader {
    pub mood: Mood,
    pub value: u32,
    pub digits: u32,
    pub held: usize,
    pub line: u64,
}

// Before the first byte.
pub fn start() -> Reader
    ensures { result ≡ at_start }
{
    Reader {
        mood: Mood::Words,
        value: 0,
        digits: 0,
        held: 0,
        line: 1,
    }
}

// The digit that a byte is, if it is one.
#[tactic(auto, unfolding(crate::specs::Reading::digit_of))]
fn digit_of(b: u8) -> Option<u32>
    ensures { SomeIff result (digit_of b < 16) (digit_of b) }
{
    char::from(b).to_digit(16)
}

// Whether a byte ends a word.
#[tactic(auto, unfolding(crate::specs::Reading::is_end))]
fn is_end(b: u8) -> bool
    ensures { result ≡ is_end b }
{
    matches!(b, b' ' | b'\t' | b'\r' | b'\n' | b'#')
}

impl Reader {
    // A digit more: a word has five.
    #[tactic(auto, unfolding(crate::specs::Reading::grown))]
    fn grow(self, digit: u32) -> Reader
        requires { digit < 16 }
        ensures { result ≡ grown self digit }
    {
        if self.digits < 5 {
            return Reader {
                value: self.value % 65536 * 16 + digit,
                digits: self.digits + 1,
                ..self
            };
        }
        Reader {
            mood: Mood::NotWord,
            ..self
        }
    }

    // Stores a word, if there is room.
    #[tactic(auto, unfolding(crate::specs::Reading::stored))]
    fn store(self, words: &mut [u32]) -> Reader
        ensures { reading result words.new ≡ stored (reading self words.old) }
    {
        if self.held < words.len() {
            words[self.held] = self.value;
            return Reader {
                mood: Mood::Words,
                value: 0,
                digits: 0,
                held: self.held + 1,
                ..self
            };
        }
        Reader {
            mood: Mood::NoRoom,
            ..self
        }
    }

    // A word's end: five digits are a word, no digits are nothing, and any other number of digits is no word.
    #[tactic(auto, unfolding(crate::specs::Reading::closed))]
    fn close(self, words: &mut [u32]) -> Reader
        ensures { reading result words.new ≡ closed (reading self words.old) }
    {
        match self.digits {
            0 => self,
            5 => self.store(words),
            _ => Reader {
                mood: Mood::NotWord,
                ..self
            },
        }
    }

    // The next line.
    fn next_line(self) -> Reader
        ensures { result ≡ lined self }
    {
        Reader {
            mood: Mood::Words,
            line: self.line.wrapping_add(1),
            ..self
        }
    }

    // A byte that ends words, once the word before it is stored.
    #[tactic(auto, unfolding(crate::specs::Reading::passed))]
    fn pass(self, b: u8) -> Reader
        ensures { result ≡ passed self b }
    {
        match b {
            b'#' => Reader {
                mood: Mood::Remark,
                ..self
            },
            b'\n' => self.next_line(),
            _ => self,
        }
    }

    // The same, where storing it may have failed.
    fn go_on(self, b: u8) -> Reader
        ensures { result ≡ passed_in self.mood self b }
    {
        match self.mood {
            Mood::Words => self.pass(b),
            Mood::Remark | Mood::NotWord | Mood::NoRoom => self,
        }
    }

    // A byte outside of remarks.
    #[tactic(auto, unfolding(crate::specs::Reading::in_words, crate::specs::Reading::ended))]
    fn take_in_words(self, b: u8, words: &mut [u32]) -> Reader
        ensures { reading result words.new ≡ in_words (reading self words.old) b }
    {
        if let Some(digit) = digit_of(b) {
            return self.grow(digit);
        }
        if is_end(b) {
            return self.close(words).go_on(b);
        }
        Reader {
            mood: Mood::NotWord,
            ..self
        }
    }

    // A byte of a remark.
    #[tactic(auto, unfolding(crate::specs::Reading::remarked))]
    fn take_in_remark(self, b: u8) -> Reader
        ensures { result ≡ remarked self b }
    {
        match b {
            b'\n' => self.next_line(),
            b'\r' => Reader {
                mood: Mood::Words,
                ..self
            },
            _ => self,
        }
    }

    // A byte more.
    #[tactic(auto, unfolding(crate::specs::Reading::taken))]
    fn take(self, b: u8, words: &mut [u32]) -> Reader
        ensures { reading result words.new ≡ taken (reading self words.old) b }
    {
        match self.mood {
            Mood::Words => self.take_in_words(b, words),
            Mood::Remark => self.take_in_remark(b),
            Mood::NotWord | Mood::NoRoom => self,
        }
    }
}

// Reads on, over a text that may be a piece of one. The words are stored behind those that the reader has, each when the byte behind it comes,
// so that a whole text ends with a line's end or a blank. Where reading has stopped, `mood` says why and `line` where.
pub fn read(r: Reader, text: &[u8], words: &mut [u32]) -> Reader
    ensures { reading result words.new ≡ read_on (reading r words.old) text.now }
{
    let mut reader = r;
    for b in text {
        reader = reader.take(*b, words);
    }
    reader
}
