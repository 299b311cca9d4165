//! Where bytes go, which may take a part of them.

ghost use Rattle.std.specs.Prelude.{◌≡◌, ◌<◌, ◌≤◌, List, ℕ, Option, [], is_some, length, OnOk, OnErr, IfOk, IsErrOf, IsOk};
ghost use Rattle.std.specs.Io.KnownBytes.{Appends, WriteAppends};
ghost use Rattle.pipe_columns.specs.Causes.{HasCause};
ghost use Rattle.pipe_io.specs.Output.{WroteFront};
ghost use Rattle.pipe_io.specs.declared.output.OutputError.TheVariants as output_error;

/// Why an output took nothing.
#[derive(Debug, Drop, PartialEq, Eq)]
pub enum OutputError {
    /// A write failed.
    Failed,
    /// Memory ran out.
    Memory,
}

/// Where bytes go.
pub trait Output {
    /// The bytes that the output was given, where it tells. Whether it tells never changes.
    ghost told: { Self → Option (List ℕ) };

    /// How often the output failed.
    ghost faults: { Self → ℕ };

    /// Takes the first bytes of a piece, one at least, and answers how many.
    /// A refused write takes nothing.
    fn write(&mut self, piece: &[u8]) -> Result<usize, OutputError>
        requires { 0 < length piece.now }
        ensures some { IfOk result (λ n. 0 < n) }
        ensures bound { IfOk result (λ n. n ≤ length piece.now) }
        ensures tells { is_some (told self.new) ≡ is_some (told self.old) }
        ensures bytes { WriteAppends (told self.old) (told self.new) result piece.now }
        ensures cause { HasCause (faults self.old) (faults self.new)
            (IsErrOf result output_error.Failed) };
}

/// Writes all the bytes, or where a write is refused a front of them.
pub fn write_all<O: Output>(output: &mut O, bytes: &[u8]) -> Result<(), OutputError>
    ensures all { OnOk result (Appends (O.told output.old) (O.told output.new) bytes.now) }
    ensures tells { is_some (O.told output.new) ≡ is_some (O.told output.old) }
    ensures front { OnErr result (WroteFront (O.told output.old) (O.told output.new) bytes.now) }
    ensures cause { HasCause (O.faults output.old) (O.faults output.new)
        (IsErrOf result output_error.Failed) }
    ensures empty_untouched { bytes.now ≡ [] → output.new ≡ output.old }
    ensures empty_ok { bytes.now ≡ [] → IsOk result }
{
    let mut done = 0;
    for _turn in 0..bytes.len() {
        if done == bytes.len() {
            return Ok(());
        }
        match output.write(&bytes[done..]) {
            Ok(count) => done += count,
            Err(error) => return Err(error),
        }
    }
    Ok(())
}
