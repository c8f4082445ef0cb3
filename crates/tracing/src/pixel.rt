// One word of a recording, taken, and traced where it has a pixel at a place that is asked for.
ghost use Rattle.std.specs.Prelude.{◌≡◌, not, ◌&&◌, [], if◌then◌else◌, ◌==◌, nat_eq};
ghost use Rattle.report.specs.Calls.{Lays};
ghost use Rattle.listing.specs.Trace.{watch_line};
ghost use Rattle.tracing.specs.Lent.{Counts, Turned};
ghost use Rattle.tracing.specs.Watch.{narrowed, aimed, passes_at, loads_at, hits_of, numbers_at, watch_at};

use crate::next::{is_over, take};
use chip::draw::draw;
use chip::run::Ran;
use listing::trace::{Numbers, Traced, watch_line};
use picture::place::rows_of;
use picture::transfer::fetch;
use picture::{Frame, Memories};
use registers::shape::Completed;
use registers::word::{Word, word_of};
use registers::{Registers, Window};
use report::Page;
use stream::read::word;

// The pixel that is asked for.
#[derive(Clone, Copy)]
pub struct Pixel {
    pub x: u16,
    pub y: u16,
}

impl Pixel {
    // What of a window is at the pixel.
    fn narrow(self, window: Window) -> Window
        ensures { result ≡ narrowed self.x self.y window }
    {
        Window {
            left: window.left.max(self.x),
            top: window.top.min(self.y),
            right: window.right.min(self.x),
            bottom: window.bottom.max(self.y),
        }
    }

    // The registers with that window and both write enables off.
    fn aim(self, mut registers: Registers) -> Registers
        ensures { result ≡ aimed self.x self.y registers }
    {
        registers.modes.hcontrol = 0;
        registers.window = self.narrow(registers.window);
        registers
    }

    // How many pixels of a figure pass there. With those registers none is stored.
    fn passes(self, registers: Registers, figure: Completed, im: &mut [u16], zm: &mut [u16]) -> u64
        ensures { Counts (passes_at self.x self.y registers figure) im zm result }
    {
        let mut m = Memories { i: im, z: zm };
        draw(self.aim(registers), figure, &mut m)
    }

    // How many pixels PTRN has there: its own, or none. A count, so that `hits` tells it in one with those of figures; over memories of so many places, as `loads_at` has it.
    #[tactic(auto, unfolding(crate::specs::Watch::loads_at))]
    fn loads(self, registers: Registers, ni: usize, nz: usize) -> u64
        ensures { result ≡ loads_at self.x self.y registers ni nz }
    {
        let Registers { region, frame, .. } = registers;
        let rows = rows_of(frame, ni, nz);
        let here = region.x == self.x && region.y == self.y;
        let inside = self.x < frame.line && (self.y as usize) < rows;
        u64::from(here && inside)
    }

    // How many pixels a word has there, if it is accepted.
    #[tactic(auto, unfolding(crate::specs::Watch::hits_of))]
    fn hits(self, registers: Registers, word: Word, im: &mut [u16], zm: &mut [u16]) -> u64
        ensures { Counts (hits_of self.x self.y registers word) im zm result }
    {
        match word {
            Word::At(coordinate, number) => {
                self.passes(
                    registers,
                    registers.completed_by(coordinate, number),
                    im,
                    zm,
                )
            }
            Word::Ptrn(_) => self.loads(registers, im.len(), zm.len()),
            Word::Init(_)
            | Word::Aux(_)
            | Word::Parm(_)
            | Word::Img(_)
            | Word::Reserved
            | Word::Unmodelled
            | Word::Unknown => 0,
        }
    }

    // The two numbers there.
    fn numbers(self, frame: Frame, im: &[u16], zm: &[u16]) -> Numbers
        ensures { result ≡ numbers_at frame self.x self.y im.now zm.now }
    {
        Numbers {
            i: fetch(frame, false, self.x, self.y, im, zm),
            z: fetch(frame, true, self.x, self.y, im, zm),
        }
    }
}

// Lays a word's line, if it was accepted and has pixels.
fn lay(word: Traced, count: u64, before: Numbers, after: Numbers, page: &mut Page<'_>)
    ensures { Lays (if nat_eq word.refusal 0 && not (count == 0) then watch_line word before after else []) page.old page.new }
{
    if word.refusal == 0 && count != 0 {
        watch_line(word, before, after, page);
    }
}

// Takes the next word and, if it has the pixel, lays its line with the numbers there on a page; does nothing where nothing is left.
pub fn watch(
    pixel: Pixel,
    run: Ran,
    bytes: &[u8],
    im: &mut [u16],
    zm: &mut [u16],
    page: &mut Page<'_>,
) -> Ran
    ensures { Turned (watch_at pixel.x pixel.y) bytes run im zm page.old page.new result }
{
    if is_over(run, bytes) {
        return run;
    }
    let frame = run.registers.frame;
    let word = word(bytes, run.index as usize);
    let next = word_of(word);
    let before = pixel.numbers(frame, im, zm);
    let count = pixel.hits(run.registers, next, im, zm);
    let taken = take(run, bytes, im, zm);
    let after = pixel.numbers(frame, im, zm);
    lay(taken.traced, count, before, after, page);
    taken.run
}
