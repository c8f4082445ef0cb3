// The squares that are found, gathered beside what a caller lends.
ghost use Rattle.std.specs.Prelude.{◌≡◌, ◌<◌, ◌≤◌, List, ℕ, [], ◌∷◌, ◌++◌, length, take};

use std::marker::Model;

// So many squares, a number each, at the front of a memory that holds all that ever remain: no heap, and no memory of a caller.
#[derive(Drop)]
pub(crate) struct Found {
    pub(crate) squares: [u32; 1024],
    pub(crate) count: usize,
}

impl Model for Found {
    ghost Value = { List ℕ };

    ghost view = { λ found. take found.count found.squares };

    ghost invariant = { λ found. found.count ≤ 1024 };
}

impl Found {
    // One more.
    pub(crate) fn push(&mut self, square: u32)
        requires { length self.old < 1024 }
        ensures { self.new ≡ self.old ++ square ∷ [] }
    {
        self.squares[self.count] = square;
        self.count += 1;
    }

    // All of them.
    pub(crate) fn as_slice(&self) -> &[u32]
        ensures { result.now ≡ self.now }
    {
        &self.squares[..self.count]
    }
}
