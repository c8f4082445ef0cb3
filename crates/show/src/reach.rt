// How high the figures of a recording reach. It goes over the words with the registers alone: what follows a word sees no memory.
ghost use Rattle.std.specs.Prelude.{◌≡◌, ◌<◌, IfSome};
ghost use Rattle.stream.specs.Format.{word_at};
ghost use Rattle.registers.specs.Word.{word_of};
ghost use Rattle.registers.specs.Next.{record_after};
ghost use Rattle.show.specs.Reach.{height_of, reach_of, is_missed, risen, raised, onward, reached};

use crate::{Above, Came};
use chip::figure::completed;
use picture::place::rows_of;
use registers::Registers;
use registers::shape::Completed;
use registers::word::{Word, word_of};
use stream::read::word;

// The rows up to a figure's topmost vertex.
fn height_of(figure: Completed) -> usize
    ensures { result ≡ height_of figure }
{
    match figure {
        Completed::Nothing => 0,
        Completed::Triangle(a, b, c) => a.y.max(b.y).max(c.y) as usize + 1,
        Completed::Segment(a, b) => a.y.max(b.y) as usize + 1,
    }
}

// The rows that its pixels may lie in. It parts from `height_of` at triangles alone, and stands beside it: told by it, it would take off the row that was added.
fn reach_of(figure: Completed) -> usize
    ensures { result ≡ reach_of figure }
{
    match figure {
        Completed::Nothing => 0,
        Completed::Triangle(a, b, c) => a.y.max(b.y).max(c.y) as usize,
        Completed::Segment(a, b) => a.y.max(b.y) as usize + 1,
    }
}

// Whether it may have pixels above the rows in use.
fn is_missed(rows: usize, reach: usize, top: u16) -> bool
    ensures { result ≡ is_missed rows reach top }
{
    (rows < reach) & !((top as usize) < rows)
}

// The registers after an accepted word.
fn next(r: Registers, word: Word) -> Registers
    ensures { result ≡ record_after r word }
{
    match word {
        Word::Init(d) => r.init(d),
        Word::Aux(n) => r.aux(n),
        Word::Parm(v) => r.parm(v),
        Word::At(c, n) => r.coordinate(c, n),
        Word::Img(d) => r.img(d),
        Word::Ptrn(_) => r.transferred(),
        // These are refused, so that none of them comes here.
        Word::Reserved | Word::Unmodelled | Word::Unknown => r,
    }
}

// The rows of the highest figure so far; of none, 0.
fn risen(above: Option<Above>) -> usize
    ensures { result ≡ risen above }
{
    above.map_or(0, |above| above.height)
}

// The higher of the highest figure so far and one more.
fn higher(above: Option<Above>, missed: bool, height: usize, rows: usize) -> Option<Above>
    ensures { result ≡ raised above missed height rows }
{
    if missed & (risen(above) < height) {
        return Some(Above { height, rows });
    }
    above
}

// One word more.
fn taken(places: usize, s: Came, word: Word) -> Came
    ensures { result ≡ onward places s word }
{
    let r = s.registers;
    let rows = rows_of(r.frame, places, places);
    let figure = completed(r, word);
    let missed = is_missed(rows, reach_of(figure), r.window.top);
    Came {
        registers: next(r, word),
        above: higher(s.above, missed, height_of(figure), rows),
    }
}

// The word at place k of a stream, taken.
fn taken_at(places: usize, s: Came, bytes: &[u8], k: usize) -> Came
    ensures { result ≡ onward places s (word_of (word_at bytes.now k)) }
{
    taken(places, s, word_of(word(bytes, k)))
}

// The highest figure of a stream's first words of which rows are missed, over memories of so many places.
pub(crate) fn reach(places: usize, bytes: &[u8], count: usize) -> Option<Above>
    ensures so_far { result ≡ (reached places bytes.now count).above }
    ensures high { IfSome result (λ above. 0 < above.height) }
{
    let mut s = Came {
        registers: Registers::reset(),
        above: None,
    };
    for k in 0..count {
        s = taken_at(places, s, bytes, k);
    }
    s.above
}
