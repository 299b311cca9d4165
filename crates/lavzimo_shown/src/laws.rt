//! What holds of whatever is shown: each clause is a law, and stands on an empty function.

ghost use Rattle.std.specs.Prelude.{◌≡◌, ◌∷◌, [], List, pos, ℕ, false};
ghost use Rattle.pipe_columns.specs.declared.any_value.AnyValue.TheVariants as av;
ghost use Rattle.pipe_columns.specs.declared.data_chunk.DataChunk.{DataChunk};
ghost use Rattle.pipe_model.specs.Answer.{answer, answer_row};
ghost use Rattle.pipe_words.specs.declared.plan.Format.{Format};
ghost use Rattle.lavzimo_words.specs.Asked.{ColumnsSeen, of_columns};
ghost use Rattle.lavzimo_words.specs.AskedQuery.{query_of_words};
ghost use Rattle.lavzimo_shown.specs.Showing.{shown_of, shown_text};

/// What is shown of the answer of asked columns doesn't depend on the number of partitions.
pub fn shown_answers_have_no_partitions()
    ensures { (c : ColumnsSeen) (f : Format) (chunks : List DataChunk) (m n : ℕ)
        → shown_text f (shown_of (of_columns c) (query_of_words c)) (answer chunks (query_of_words c) m)
        ≡ shown_text f (shown_of (of_columns c) (query_of_words c)) (answer chunks (query_of_words c) n) }
{}
