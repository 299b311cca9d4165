//! Files in memory that may tell other sizes.

use pipe_columns::Text;
use pipe_io::{InputError, InputFiles, MemoryFiles};

/// Files in memory, each of which is told to have so many bytes where it is said.
#[derive(Drop)]
pub(crate) struct Hinted {
    pub(crate) files: MemoryFiles,
    pub(crate) told: Option<usize>,
}

impl InputFiles for Hinted {
    ghost use Rattle.pipe_io.specs.MemoryFiles.{begun_of, held_faults, held_rest, held_files, tried_of};

    ghost told = { λ h. held_files h.files };

    ghost left = { λ h. held_rest h.files };

    ghost begun = { λ h. begun_of h.files };

    ghost faults = { λ h. held_faults h.files };

    ghost tried = { λ h. tried_of h.files };

    fn begin(&mut self, name: &Text) -> Result<(), InputError> {
        self.files.begin(name)
    }

    fn size_hint(&self) -> usize {
        match self.told {
            Some(bytes) => bytes,
            None => self.files.size_hint(),
        }
    }

    fn read(&mut self, into: &mut [u8]) -> Result<usize, InputError> {
        self.files.read(into)
    }
}
