// Two pictures of one size.
ghost use Rattle.std.specs.Prelude.{◌≡◌, ◌*◌, length};

use crate::size::Size;

// Two pictures of one size.
#[derive(Clone, Copy)]
pub(crate) struct Pictures<'a> {
    pub(crate) old: &'a [u16],
    pub(crate) new: &'a [u16],
    pub(crate) size: Size,
    ghost old_fits: { length old.now ≡ size.width * size.rows },
    ghost new_fits: { length new.now ≡ size.width * size.rows },
}
