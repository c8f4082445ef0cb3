// What belongs to no subject: why a call refuses, and laws of truth values and of promises (proofs/).
#![tactic(auto)]

ghost use Rattle.std.specs.Prelude.{◌≡◌};
ghost use Rattle.ground.specs.Refusal.{number, told, encoded};

// Why a call refuses, in the order of document 01's numbers, from 1 on (specs/Refusal.antt).
#[derive(Clone, Copy, Debug, PartialEq, Eq)]
pub enum Refusal {
    // a command above 15, or a word of more than 20 bits
    BadWord,
    // memories of two lengths, or a record that breaks a bound
    Unsound,
    // no INIT was accepted
    NotStarted,
    // command 7 or C hex
    ReservedCommand,
    // command A hex, or AUX 11
    NotModelled,
    // a parameter is awaited
    Awaited,
    // PARM, and none is awaited
    NoneAwaited,
    // AUX above 12
    NoSubcommand,
    // a value that is not allowed
    NotAllowed,
    // X or PX that fits no open figure
    NoFit,
    // the length of no whole number of words
    BadLength,
    // an odd stream whose last half byte is not 0
    BadTail,
    // too little room, or a place past the last word
    NoRoom,
    // no region is open that way
    NoTransfer,
}

impl From<Refusal> for u64 {
    ghost from_gives = { λ refusal n. n ≡ number refusal };

    fn from(refusal: Refusal) -> u64 {
        match refusal {
            Refusal::BadWord => 1,
            Refusal::Unsound => 2,
            Refusal::NotStarted => 3,
            Refusal::ReservedCommand => 4,
            Refusal::NotModelled => 5,
            Refusal::Awaited => 6,
            Refusal::NoneAwaited => 7,
            Refusal::NoSubcommand => 8,
            Refusal::NotAllowed => 9,
            Refusal::NoFit => 10,
            Refusal::BadLength => 11,
            Refusal::BadTail => 12,
            Refusal::NoRoom => 13,
            Refusal::NoTransfer => 14,
        }
    }
}

// The number that an answer tells; 0 where nothing was refused.
pub fn number_of<T: Drop>(answer: Result<T, Refusal>) -> u64
    ensures { result ≡ told answer }
{
    match answer {
        Ok(_) => 0,
        Err(refusal) => refusal.into(),
    }
}

// What is added to a refusal's number where it is told to C in the place of a value.
const REFUSED: u64 = 0x8000_0000_0000_0000;

// An answer as one number for C.
pub fn encoded(answer: Result<usize, Refusal>) -> u64
    ensures { result ≡ encoded answer }
{
    match answer {
        Ok(value) => value as u64,
        Err(refusal) => REFUSED + u64::from(refusal),
    }
}
