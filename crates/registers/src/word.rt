// Words: a command of four bits and sixteen bits of data.
ghost use Rattle.std.specs.Prelude.{◌≡◌, ◌/◌, ◌%◌};
ghost use Rattle.registers.specs.Word.{decode, word_of};

// The commands that carry a number of a vertex.
#[derive(Clone, Copy)]
pub enum Coordinate {
    I,
    Z,
    Y,
    X,
    T1x,
    T2x,
    Lx,
    Px,
}

// A decoded word. Reserved are 7 and C hex; the sheet has A hex, and it is not modelled; above F hex no command is known.
#[derive(Clone, Copy)]
pub enum Word {
    Init(u16),
    Aux(u16),
    Parm(u16),
    At(Coordinate, u16),
    Img(u16),
    Ptrn(u16),
    Reserved,
    Unmodelled,
    Unknown,
}

// What a command and its data mean.
#[tactic(auto, unfolding(crate::specs::Word::decode))]
pub fn decoded(command: u8, data: u16) -> Word
    ensures { result ≡ decode command «data» }
{
    match command {
        0 => Word::Ptrn(data),
        1 => Word::At(Coordinate::I, data),
        2 => Word::At(Coordinate::Z, data),
        3 => Word::At(Coordinate::Y, data),
        4 => Word::At(Coordinate::X, data),
        5 => Word::At(Coordinate::T1x, data),
        6 => Word::At(Coordinate::T2x, data),
        8 => Word::At(Coordinate::Lx, data),
        9 => Word::Img(data),
        10 => Word::Unmodelled,
        11 => Word::At(Coordinate::Px, data),
        7 | 12 => Word::Reserved,
        13 => Word::Parm(data),
        14 => Word::Aux(data),
        15 => Word::Init(data),
        _ => Word::Unknown,
    }
}

// The command and the data of a word. (A word of more than 20 bits, which no stream has, is split too: its command comes modulo 256, as a `u8` holds it.)
pub fn parts(word: u32) -> (u8, u16)
    ensures { (result.0 ≡ word / 65536 % 256) × (result.1 ≡ word % 65536) }
{
    ((word / 65536 % 256) as u8, (word % 65536) as u16)
}

// What a word means. One of more than 20 bits has a command above F hex, which is not known, and the least of them stands for all.
#[tactic(auto, using(crate::proofs::Words::large_unknown), unfolding(crate::specs::Word::word_of))]
pub fn word_of(word: u32) -> Word
    ensures { result ≡ word_of word }
{
    let (command, data) = parts(word.min(1048576));
    decoded(command, data)
}
