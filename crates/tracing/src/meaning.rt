// What a word means. The numbers are rows of listing's table of meanings (its `Meaning` says why they are numbers).
ghost use Rattle.std.specs.Prelude.{◌≡◌, if◌then◌else◌};
ghost use Rattle.registers.specs.Next.{is_deep_picture};
ghost use Rattle.chip.specs.Chip.{is_constant};
ghost use Rattle.tracing.specs.Meaning.{plainly, subject, line_row, completed_meaning, coordinate_meaning, meaning_of};

use line::Mode;
use listing::trace::Meaning;
use registers::Registers;
use registers::shape::Completed;
use registers::subcommand::Subcommand;
use registers::word::{Coordinate, Word};

// A row without parameters.
fn plain(row: u64) -> Meaning
    ensures { result ≡ plainly row }
{
    Meaning {
        row,
        came: 0,
        wanted: 0,
    }
}

// A subcommand, and which of its parameters.
fn subject_of(number: u16, place: u64) -> Meaning
    ensures { result ≡ subject number place }
{
    Meaning {
        row: number as u64,
        came: place,
        wanted: Subcommand::from(number).wanted() as u64,
    }
}

// The row of a triangle. (The test is made once here, as in `is_constant`, and once where triangles are drawn: a method of `Registers` would be no plainer than it.)
fn triangle_row(registers: Registers) -> u64
    ensures { result ≡ (if is_constant registers then 17 else 16) }
{
    if registers.modes.pmode == 1 { 17 } else { 16 }
}

// The row of a segment.
fn line_row(mode: Mode) -> u64
    ensures { result ≡ line_row mode }
{
    match mode {
        Mode::Zero => 18,
        Mode::One => 19,
        Mode::Two => 20,
    }
}

// The row of a picture's pixel.
fn picture_row(registers: Registers) -> u64
    ensures { result ≡ (if is_deep_picture registers then 29 else 28) }
{
    if registers.is_deep_picture() { 29 } else { 28 }
}

// What a vertex means that completes this.
#[tactic(auto, unfolding(crate::specs::Meaning::completed_meaning))]
fn completed_meaning(registers: Registers, figure: Completed) -> Meaning
    ensures { result ≡ completed_meaning registers figure }
{
    match figure {
        Completed::Nothing => plain(13),
        Completed::Triangle(_, _, _) => plain(triangle_row(registers)),
        Completed::Segment(_, _) => plain(line_row(Mode::from(registers.modes.lmode))),
    }
}

// What a coordinate means.
#[tactic(auto, unfolding(crate::specs::Meaning::coordinate_meaning))]
fn coordinate_meaning(registers: Registers, coordinate: Coordinate, number: u16) -> Meaning
    ensures { result ≡ coordinate_meaning registers coordinate number }
{
    match coordinate {
        Coordinate::I => plain(25),
        Coordinate::Z => plain(26),
        Coordinate::Y => plain(27),
        Coordinate::T1x => plain(21),
        Coordinate::T2x => plain(22),
        Coordinate::Lx => plain(23),
        // These complete vertices.
        Coordinate::X | Coordinate::Px => {
            completed_meaning(registers, registers.completed_by(coordinate, number))
        }
    }
}

// What a word means. (13 and 14 here are rows of listing's table, as those above.)
#[tactic(auto, unfolding(crate::specs::Meaning::meaning_of))]
pub(crate) fn meaning(registers: Registers, word: Word) -> Meaning
    ensures { result ≡ meaning_of registers word }
{
    match word {
        Word::Init(_) => plain(24),
        Word::Aux(number) => subject_of(number.min(13), 0),
        Word::Parm(_) => {
            let parked = registers.parked;
            subject_of(parked.subcommand, parked.came as u64 + 1)
        }
        Word::At(coordinate, number) => coordinate_meaning(registers, coordinate, number),
        Word::Img(operand) => subject_of(14 + operand % 2, 0),
        Word::Ptrn(_) => plain(picture_row(registers)),
        Word::Reserved => plain(30),
        Word::Unmodelled => plain(11),
        Word::Unknown => plain(31),
    }
}
