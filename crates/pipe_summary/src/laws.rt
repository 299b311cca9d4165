//! Laws of summaries: what they stand for, answered, added to and merged.

ghost use Rattle.std.specs.Prelude.{◌≡◌, ◌≤◌, ◌++◌, ◌∷◌, [], ℕ, List, false, length};
ghost use Rattle.std.specs.List.{flat_map};
ghost use Rattle.pipe_columns.specs.declared.data_chunk.DataChunk.{DataChunk};
ghost use Rattle.pipe_model.specs.Answer.{answer};
ghost use Rattle.pipe_model.specs.Query.{QueryTree};
ghost use Rattle.pipe_states.specs.Files.{IsFairStateOf};
ghost use Rattle.pipe_states.specs.Parts.{part_of, saved};
ghost use Rattle.pipe_states.specs.Regrouped.{end_of, merged_states};
ghost use Rattle.pipe_states.specs.States.{StateSeen};
ghost use Rattle.pipe_states.specs.StateText.{state_text};
ghost use Rattle.pipe_summary.specs.InTurn.{AreInTurn, IsFirstDamaged};
ghost use Rattle.pipe_summary.specs.Summed.{summed};
ghost use Rattle.pipe_summary.specs.Sums.{run_states, Sums, texts_of};

/// The answer of a query that doesn't keep order, with one partition, is what the states of the
/// chunks come to, in whatever runs these are saved; so it is what the states come to whose texts
/// are frames that sum the chunks up.
pub fn answer_of_a_summary()
    ensures runs { (q : QueryTree) (runs : List (List DataChunk)) → q.keeps_order ≡ false
        → summed q (run_states q runs) ≡ answer (flat_map (λ run. run) runs) q 1 }
    ensures frames { (q : QueryTree) (states : List StateSeen) (chunks : List DataChunk)
        → q.keeps_order ≡ false → AreInTurn q states → Sums q (texts_of q states) chunks
        → summed q states ≡ answer chunks q 1 }
{}

/// Frames that sum chunks up are the texts of one list of states in turn, unless their rows are too
/// many; these end behind the last chunk.
pub fn states_of_a_summary()
    ensures states { (q : QueryTree) (states : List StateSeen) (chunks : List DataChunk)
        → AreInTurn q states → Sums q (texts_of q states) chunks → end_of states ≡ length chunks }
    ensures one_list { (q : QueryTree) (s t : List StateSeen) → AreInTurn q s → AreInTurn q t
        → texts_of q s ≡ texts_of q t → s ≡ t }
{}

/// With the frame of more chunks, whose range begins behind the last, frames sum those up too.
pub fn frame_more_in_a_summary()
    ensures { (q : QueryTree) (frames : List (List ℕ)) (chunks more : List DataChunk)
        → Sums q frames chunks → 1 ≤ length more
        → IsFairStateOf q (saved q (part_of q (length chunks) more))
        → Sums q (frames ++ state_text q (saved q (part_of q (length chunks) more)) ∷ [])
        (chunks ++ more) }
{}

/// Frames that sum chunks up, merged into one, do so too.
pub fn summary_as_one_frame()
    ensures none { (q : QueryTree) → Sums q [] [] }
    ensures one { (q : QueryTree) (s : StateSeen) (states : List StateSeen)
        (chunks : List DataChunk) → AreInTurn q (s ∷ states)
        → Sums q (texts_of q (s ∷ states)) chunks
        → Sums q (state_text q (merged_states q (s ∷ states)) ∷ []) chunks }
{}

/// Of frames one at most is the first that is damaged, and none where they are the texts of states
/// in turn.
pub fn one_frame_is_damaged()
    ensures one { (q : QueryTree) (frames : List (List ℕ)) (m n : ℕ)
        → IsFirstDamaged q frames m → IsFirstDamaged q frames n → m ≡ n }
    ensures none { (q : QueryTree) (states : List StateSeen) (n : ℕ) → AreInTurn q states
        → IsFirstDamaged q (texts_of q states) n → ⊥ }
{}
