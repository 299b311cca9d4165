//! Where named files come from.

ghost use Rattle.std.specs.Prelude.{◌≡◌, ◌<◌, ◌++◌, ◌∷◌, List, ℕ, Bool, Option, true, false, length, OnOk, OnErr, IsErrOf, []};
ghost use Rattle.std.specs.Io.{ReadsAtMost};
ghost use Rattle.std.specs.Io.KnownBytes.{ReadConsumes};
ghost use Rattle.std.specs.Thread.{IsSync};
ghost use Rattle.pipe_columns.specs.Causes.{HasCause};
ghost use Rattle.pipe_io.specs.Files.{Files, HasNoFile, IsRead};
ghost use Rattle.pipe_io.specs.declared.input.InputError.TheVariants as input_error;

use pipe_columns::Text;
use std::thread::Threads;

/// Why an input gave nothing.
#[derive(Debug, Drop, PartialEq, Eq)]
pub enum InputError {
    /// An opening or a read failed.
    Failed,
    /// No file has the name.
    NoFile,
    /// Memory ran out.
    Memory,
}

/// Named files, of which one at a time is read.
pub trait InputFiles {
    /// The files, where the input tells them.
    ghost told: { Self → Option Files };

    /// What is left of the file that is begun, where the input tells.
    ghost left: { Self → Option (List ℕ) };

    /// Whether a file is begun.
    ghost begun: { Self → Bool };

    /// How often the input failed.
    ghost faults: { Self → ℕ };

    /// The name of each file that was to be begun, in order.
    ghost tried: { Self → List (List ℕ) };

    /// Begins the first file of the name at its first byte.
    fn begin(&mut self, name: &Text) -> Result<(), InputError>
        ensures told { told self.new ≡ told self.old }
        ensures started { OnOk result (begun self.new ≡ true) }
        ensures at_start { OnOk result (IsRead (told self.old) name.now (left self.new) []) }
        ensures missing { IsErrOf result input_error.NoFile → HasNoFile (told self.old) name.now }
        ensures no_fault { IsErrOf result input_error.NoFile → faults self.new ≡ faults self.old }
        ensures refused { OnErr result (begun self.new ≡ false) }
        ensures tried { tried self.new ≡ tried self.old ++ name.now ∷ [] }
        ensures cause { HasCause (faults self.old) (faults self.new)
            (IsErrOf result input_error.Failed) };

    /// About how many bytes the begun file has, and 0 where that isn't known. Nothing is claimed.
    fn size_hint(&self) -> usize {
        0
    }

    /// Gives the next bytes of the begun file, and none exactly at its end.
    /// A refused read takes nothing.
    fn read(&mut self, into: &mut [u8]) -> Result<usize, InputError>
        requires started { begun self.old ≡ true }
        requires room { 0 < length into.old }
        ensures told { told self.new ≡ told self.old }
        ensures begun { begun self.new ≡ true }
        ensures bound { ReadsAtMost result into.new }
        ensures bytes { ReadConsumes (left self.old) (left self.new) result into.new }
        ensures found { IsErrOf result input_error.NoFile → ⊥ }
        ensures tried { tried self.new ≡ tried self.old }
        ensures cause { HasCause (faults self.old) (faults self.new)
            (IsErrOf result input_error.Failed) };
    /// Gives the next bytes of the begun file as `read` does, of which so many threads at most may
    /// each read a part.
    fn read_beside<H: Threads + Sync>(
        &mut self,
        _rt: &H,
        _threads: usize,
        into: &mut [u8],
    ) -> Result<usize, InputError>
        requires shared { IsSync H.row }
        requires started { begun self.old ≡ true }
        requires room { 0 < length into.old }
        ensures told { told self.new ≡ told self.old }
        ensures begun { begun self.new ≡ true }
        ensures bound { ReadsAtMost result into.new }
        ensures bytes { ReadConsumes (left self.old) (left self.new) result into.new }
        ensures found { IsErrOf result input_error.NoFile → ⊥ }
        ensures tried { tried self.new ≡ tried self.old }
        ensures cause { HasCause (faults self.old) (faults self.new)
            (IsErrOf result input_error.Failed) }
    {
        self.read(into)
    }
}
