//! The law that a call on saved states has one result.

ghost use Rattle.std.specs.Prelude.{◌≡◌, ℕ, List, Result};
ghost use Rattle.memory_states.specs.Results.{IsResult};
ghost use Rattle.pipe_io.specs.Files.{Files};
ghost use Rattle.rollup_answer.specs.declared.fault.RollupFault.{RollupFault};
ghost use Rattle.rollup_words.specs.Asked.{Asked};

/// What is asked of files comes to one text or to one fault, and never to both.
pub fn calls_have_one_result()
    ensures { (a : Asked) (files : Files) (r s : Result (List ℕ) RollupFault)
        → IsResult a files r → IsResult a files s → r ≡ s }
{}
