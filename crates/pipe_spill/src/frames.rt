//! A list of frames.

ghost use Rattle.std.specs.Prelude.{◌≡◌};
ghost use Rattle.pipe_spill.specs.Store.{contents};

use std::marker::Model;

/// Frames as their bytes. Contracts see it as a list of lists of bytes.
#[derive(Debug, Drop)]
pub struct Frames {
    items: Vec<Vec<u8>>,
}

impl Model for Frames {
    ghost use Rattle.std.specs.Prelude.{List, ℕ};
    ghost use Rattle.pipe_spill.specs.Store.{contents};

    ghost Value = { List (List ℕ) };

    ghost view = { λ f. contents f.items.items };
}

impl Frames {
    /// The list of these frames. It takes no memory.
    pub fn new(items: Vec<Vec<u8>>) -> Frames
        ensures { result ≡ contents items.items }
    {
        Frames { items }
    }

    /// The frames, lent. It takes no memory.
    pub fn as_slice(&self) -> &[Vec<u8>]
        ensures { contents result.now ≡ self.now }
    {
        &self.items
    }

    /// Gives the frames back. It takes no memory.
    pub fn into_vec(self) -> Vec<Vec<u8>>
        ensures { contents result.items ≡ self }
    {
        self.items
    }
}
