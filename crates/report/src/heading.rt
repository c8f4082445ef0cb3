// The first line: what came of the run.
ghost use Rattle.std.specs.Prelude.{length};
ghost use Rattle.report.specs.Text.{named, heading};
ghost use Rattle.report.specs.Calls.{Adds, Room, Sized};

use crate::number::digits;
use crate::page::Page;

// The three numbers of a run: its words, the number that refused one or 0, and the pixels that passed.
#[derive(Clone, Copy)]
pub(crate) struct Heading {
    pub(crate) words: u64,
    pub(crate) refusal: u64,
    pub(crate) passed: u64,
}

impl Page<'_> {
    // Puts a name, its number, and the byte after it.
    fn put_named(&mut self, name: &[u8], n: u64, after: u8)
        requires { Room (length (named name.now n after)) self.old }
        ensures { Adds (named name.now n after) self.old self.new }
    {
        self.put_bytes(name);
        self.put_field(n, after);
    }
}

impl Heading {
    // How many bytes the first line takes: its three names have 21.
    pub(crate) fn size(self) -> usize
        ensures { Sized (heading self.words self.refusal self.passed) 84 result }
    {
        digits(self.words) + digits(self.refusal) + digits(self.passed) + 24
    }

    // Puts the first line.
    pub(crate) fn put(self, page: &mut Page<'_>)
        requires { Room (length (heading self.words self.refusal self.passed)) page.old }
        ensures { Adds (heading self.words self.refusal self.passed) page.old page.new }
    {
        page.put_named(b"words ", self.words, b' ');
        page.put_named(b"refusal ", self.refusal, b' ');
        page.put_named(b"passed ", self.passed, b'\n');
    }
}
