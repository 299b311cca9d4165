//! What is saved over the columns that a query names alone, as laws over the definitions.

ghost use Rattle.std.specs.Prelude.{◌≡◌, Bool, ℕ, List, true};
ghost use Rattle.narrow_columns.specs.Wanted.{narrowed_chunks};
ghost use Rattle.narrow_query.specs.Names.{covers};
ghost use Rattle.narrow_query.specs.Narrowed.{narrowed_tree};
ghost use Rattle.pipe_columns.specs.declared.data_chunk.DataChunk.{DataChunk};
ghost use Rattle.pipe_model.specs.Query.{QueryTree};
ghost use Rattle.pipe_saving.specs.Refusals.{AllFit};
ghost use Rattle.pipe_states.specs.Parts.{part_of, saved};
ghost use Rattle.pipe_states.specs.States.{StateSeen};
ghost use Rattle.pipe_states.specs.StateText.{state_text};

/// Chunks have the same state over fewer columns, where all that their query names are among them,
/// and a state has the same text.
pub fn states_over_fewer_columns()
    ensures state { (wanted : List Bool) (q : QueryTree) (first : ℕ) (chunks : List DataChunk)
        → AllFit q.schema chunks → covers wanted q ≡ true
        → saved (narrowed_tree wanted q)
        (part_of (narrowed_tree wanted q) first (narrowed_chunks wanted chunks))
        ≡ saved q (part_of q first chunks) }
    ensures text { (wanted : List Bool) (q : QueryTree) (s : StateSeen) → covers wanted q ≡ true
        → state_text (narrowed_tree wanted q) s ≡ state_text q s }
{}
