//! One file, whose bytes the caller has in memory.

ghost use Rattle.std.specs.Prelude.{◌≡◌, [], None};
ghost use Rattle.memory_input.specs.HeldText.{held_files, held_rest, is_begun, no_faults, one_file, tried_of};

use pipe_columns::Text;
use pipe_io::{InputError, InputFiles, TriedNames};
use std::marker::Model;

/// One file of a name, whose bytes are lent. Nothing of it fails, and it takes no memory. Contracts see
/// it, what is left of it once it is begun, and the names that were tried.
#[derive(Drop)]
pub struct TextInput<'a> {
    name: &'a Text,
    text: &'a [u8],
    left: Option<&'a [u8]>,
    tried: TriedNames,
}

impl<'a> Model for TextInput<'a> {
    ghost use Rattle.std.specs.Prelude.{option_map};
    ghost use Rattle.memory_input.specs.HeldText.{HeldText, one_file};

    ghost Value = { HeldText };

    ghost view = { λ s. record {
      files = one_file s.name.now s.text.now;
      left = option_map (λ r. r.now) s.left;
      tried = s.tried;
    } };
}

impl<'a> TextInput<'a> {
    /// A file that isn't begun.
    pub fn new(name: &'a Text, text: &'a [u8]) -> TextInput<'a>
        ensures { result
            ≡ record { files = one_file name.now text.now; left = None; tried = [] } }
    {
        TextInput {
            name,
            text,
            left: None,
            tried: TriedNames::none(),
        }
    }
}

impl InputFiles for TextInput<'_> {
    ghost told = { held_files };

    ghost left = { held_rest };

    ghost begun = { is_begun };

    ghost faults = { no_faults };

    ghost tried = { tried_of };

    fn begin(&mut self, name: &Text) -> Result<(), InputError> {
        self.tried.add(name);
        self.left = None;
        if self.name.as_bytes() != name.as_bytes() {
            return Err(InputError::NoFile);
        }
        self.left = Some(self.text);
        Ok(())
    }

    fn size_hint(&self) -> usize {
        self.text.len()
    }

    fn read(&mut self, into: &mut [u8]) -> Result<usize, InputError> {
        let Some(rest) = self.left else {
            unreachable!();
        };
        let count = rest.len().min(into.len());
        into[..count].copy_from_slice(&rest[..count]);
        self.left = Some(&rest[count..]);
        Ok(count)
    }
}
