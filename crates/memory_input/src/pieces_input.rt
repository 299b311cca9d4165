//! Files whose bytes are pieces of one text, which the caller has in memory.

ghost use Rattle.std.specs.Prelude.{◌≡◌, [], None, option_map};
ghost use Rattle.memory_input.specs.HeldText.{held_files, held_rest, is_begun, no_faults, piece_files, tried_of};
ghost use Rattle.pipe_io.specs.Files.{file_of};

use pipe_columns::Text;
use pipe_io::{InputError, InputFiles, TriedNames};
use std::marker::Model;

/// Files of some names, which are the pieces of a text that have some lengths, one behind another. The
/// text is lent. Nothing of it fails, and it takes no memory. Contracts see the files, what is left of
/// the one that is begun, and the names that were tried.
#[derive(Drop)]
pub struct PiecesInput<'a> {
    names: &'a [Text],
    lengths: &'a [usize],
    text: &'a [u8],
    left: Option<&'a [u8]>,
    tried: TriedNames,
}

impl<'a> Model for PiecesInput<'a> {
    ghost use Rattle.std.specs.Prelude.{option_map};
    ghost use Rattle.memory_input.specs.HeldText.{HeldText, piece_files};

    ghost Value = { HeldText };

    ghost view = { λ s. record {
      files = piece_files s.names.now s.lengths.now s.text.now;
      left = option_map (λ r. r.now) s.left;
      tried = s.tried;
    } };
}

/// The bytes of the first file of a name.
fn piece_of<'a>(names: &[Text], lengths: &[usize], text: &'a [u8], name: &[u8]) -> Option<&'a [u8]>
    ensures { option_map (λ r. r.now) result
        ≡ file_of (piece_files names.now lengths.now text.now) name.now }
{
    let mut names = names;
    let mut lengths = lengths;
    let mut rest = text;
    while let Some((first, later)) = names.split_first() {
        let Some((length, others)) = lengths.split_first() else {
            return None;
        };
        let (piece, behind) = rest.split_at((*length).min(rest.len()));
        if first.as_bytes() == name {
            return Some(piece);
        }
        names = later;
        lengths = others;
        rest = behind;
    }
    None
}

impl<'a> PiecesInput<'a> {
    /// No file is begun. There are no more files than names, and no more than lengths.
    pub fn new(names: &'a [Text], lengths: &'a [usize], text: &'a [u8]) -> PiecesInput<'a>
        ensures { result ≡ record {
          files = piece_files names.now lengths.now text.now;
          left = None;
          tried = [];
        } }
    {
        PiecesInput {
            names,
            lengths,
            text,
            left: None,
            tried: TriedNames::none(),
        }
    }
}

impl InputFiles for PiecesInput<'_> {
    ghost told = { held_files };

    ghost left = { held_rest };

    ghost begun = { is_begun };

    ghost faults = { no_faults };

    ghost tried = { tried_of };

    fn begin(&mut self, name: &Text) -> Result<(), InputError> {
        self.tried.add(name);
        self.left = piece_of(self.names, self.lengths, self.text, name.as_bytes());
        if self.left.is_none() {
            return Err(InputError::NoFile);
        }
        Ok(())
    }

    fn size_hint(&self) -> usize {
        match self.left {
            Some(rest) => rest.len(),
            None => 0,
        }
    }

    fn read(&mut self, into: &mut [u8]) -> Result<usize, InputError> {
        let Some(rest) = self.left else {
            unreachable!();
        };
        let count = rest.len().min(into.len());
        into[..count].copy_from_slice(&rest[..count]);
        self.left = Some(&rest[count..]);
        Ok(count)
    }
}
