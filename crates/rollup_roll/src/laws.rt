//! Laws of files that tell states: what they tell is one list, and they are refused for one cause.

ghost use Rattle.std.specs.Prelude.{◌≡◌, ℕ, List, Some, true};
ghost use Rattle.pipe_columns.specs.Frame.{FrameData};
ghost use Rattle.pipe_io.specs.Files.{Files};
ghost use Rattle.pipe_model.specs.Query.{QueryTree};
ghost use Rattle.pipe_states.specs.States.{StateSeen};
ghost use Rattle.rollup_roll.specs.Rolled.{AreRolled, is_of_files, IsRefusal};
ghost use Rattle.rollup_roll.specs.Told.{TellStates};
ghost use Rattle.rollup_roll.specs.declared.roll_error.RollError.{RollError};

/// Where an input tells its files, those of some names tell one list of states, or none.
pub fn files_tell_one_list()
    ensures { (q : QueryTree) (files : Files) (names : List (List ℕ)) (s t : List StateSeen)
        → TellStates q (Some files) names s → TellStates q (Some files) names t → s ≡ t }
{}

/// So they are rolled up into one frame or refused for one cause, and never both.
pub fn files_have_one_end()
    ensures frame { (q : QueryTree) (keep : List ℕ) (files : Files) (names : List (List ℕ))
        (f g : FrameData) → AreRolled q keep (Some files) names f
        → AreRolled q keep (Some files) names g → f ≡ g }
    ensures refusal { (q : QueryTree) (files : Files) (names : List (List ℕ)) (d e : RollError)
        → is_of_files d ≡ true → IsRefusal d q (Some files) names
        → is_of_files e ≡ true → IsRefusal e q (Some files) names → d ≡ e }
    ensures either { (q : QueryTree) (keep : List ℕ) (files : Files) (names : List (List ℕ))
        (f : FrameData) (e : RollError) → AreRolled q keep (Some files) names f
        → is_of_files e ≡ true → IsRefusal e q (Some files) names → ⊥ }
{}
