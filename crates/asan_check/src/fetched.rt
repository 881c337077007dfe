//! What was read ahead.
use std::marker::Model;

/// What was read ahead, all together: without a place for it, the compiler would leave the reads
/// out. Contracts see nothing of it.
#[derive(Drop)]
pub(crate) struct Fetched {
    mixed: u8,
}

impl Model for Fetched {
    ghost use Rattle.std.specs.Prelude.{⊤};

    ghost Value = { ⊤ };

    ghost view = { λ _. tt };
}

impl Fetched {
    /// Nothing was read yet.
    pub(crate) fn new() -> Fetched {
        Fetched { mixed: 0 }
    }

    /// Takes in what was read.
    #[inline]
    pub(crate) fn mix(&mut self, read: u8) {
        self.mixed ^= read;
    }
}
