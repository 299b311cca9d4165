//! Worked words, as laws over the definitions.

ghost use Rattle.std.specs.Prelude.{◌≡◌, ◌∷◌, [], codes};
ghost use Rattle.pipe_columns.specs.declared.data_type.DataType.TheVariants as dt;
ghost use Rattle.pipe_model.specs.Worked.{by_key, sum_and_count};
ghost use Rattle.pipe_query.specs.Worked.{sum_and_count_with};
ghost use Rattle.summary_words.specs.Asked.{adds, asked, refused, shows};
ghost use Rattle.summary_words.specs.declared.refusal.Refusal.TheVariants as refusal;
ghost use Rattle.tool_query.specs.declared.no_query.NoQuery.TheVariants as no_query;

/// Words that ask, and words of neither shape.
pub fn words_that_ask()
    ensures add { asked (codes "add" ∷ sum_and_count_with [] ∷ codes "a" ∷ codes "b" ∷ [])
        ≡ adds (by_key dt.Int64 dt.Int64 sum_and_count) (codes "a" ∷ codes "b" ∷ []) }
    ensures show { asked (codes "show" ∷ sum_and_count_with [] ∷ []) ≡ shows (by_key dt.Int64 dt.Int64 sum_and_count) }
    ensures none { asked [] ≡ refused refusal.Words }
    ensures no_file { asked (codes "add" ∷ codes "{" ∷ []) ≡ refused refusal.Words }
    ensures file { asked (codes "show" ∷ codes "{" ∷ codes "a" ∷ []) ≡ refused refusal.Words }
    ensures other { asked (codes "save" ∷ codes "{" ∷ codes "a" ∷ []) ≡ refused refusal.Words }
    ensures cut { asked (codes "show" ∷ codes "{" ∷ []) ≡ refused (refusal.Query no_query.NotJson) }
    ensures ordered { asked (codes "add" ∷ sum_and_count_with (codes ",\"maintain_order\":true") ∷ codes "a" ∷ []) ≡ refused refusal.Ordered }
{}
