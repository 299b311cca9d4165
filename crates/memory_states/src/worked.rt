//! Worked rows of what calls ask.

ghost use Rattle.std.specs.Prelude.{◌≡◌, ◌∷◌, [], codes, false, true};
ghost use Rattle.memory_states.specs.Calls.{are_lengths, roll_asked, state_files};
ghost use Rattle.rollup_words.specs.Asked.{refused};
ghost use Rattle.rollup_words.specs.declared.refusal.Refusal.TheVariants as refusal;

/// Two states in one text are two files with the names 1 and 2. Lengths come to that of the text, and there
/// is one at least.
pub(crate) fn calls_that_ask()
    ensures files { state_files (2 ∷ 1 ∷ []) (codes "abc")
        ≡ (codes "1", codes "ab") ∷ (codes "2", codes "c") ∷ [] }
    ensures whole { are_lengths (2 ∷ 1 ∷ []) (codes "abc") ≡ true }
    ensures short { are_lengths (2 ∷ []) (codes "abc") ≡ false }
    ensures none { are_lengths [] [] ≡ false }
    ensures refused { roll_asked [] [] (1 ∷ []) [] ≡ refused refusal.Words }
{}
