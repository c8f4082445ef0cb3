// A page that is being written: texts put one behind the other into a lent buffer.
ghost use Rattle.std.specs.Prelude.{◌≡◌, ◌+◌, ◌∷◌, [], length, leb};
ghost use Rattle.report.specs.Calls.{Adds, Lays, Room};

// The buffer, and the place in it that the next byte goes to.
#[derive(Drop)]
pub struct Page<'a> {
    pub out: &'a mut [u8],
    pub at: usize,
}

// Whether so many bytes have room from a place on. (No method of `Page`: the promise is of any three numbers, and `docs/CALLS.md` names it so.)
pub fn has_room(room: usize, size: usize, at: usize) -> bool
    ensures { result ≡ leb (at + size) room }
{
    size <= room && at <= room - size
}

impl Page<'_> {
    // Puts bytes.
    pub(crate) fn put_bytes(&mut self, text: &[u8])
        requires { Room (length text.now) self.old }
        ensures { Adds text.now self.old self.new }
    {
        let next = self.at + text.len();
        self.out[self.at..next].copy_from_slice(text);
        self.at = next;
    }

    // Puts a byte.
    pub(crate) fn put_byte(&mut self, byte: u8)
        requires { Room 1 self.old }
        ensures { Adds (byte ∷ []) self.old self.new }
    {
        self.out[self.at] = byte;
        self.at += 1;
    }

    // Lays a text; where it has no room, it is left out.
    pub fn lay(&mut self, text: &[u8])
        ensures { Lays text.now self.old self.new }
    {
        if has_room(self.out.len(), text.len(), self.at) {
            self.put_bytes(text);
        }
    }
}
