//! Worked words, as laws over the definitions.

ghost use Rattle.std.specs.Prelude.{◌≡◌, ◌∷◌, [], codes};
ghost use Rattle.tool_words.specs.Asked.{asked, asks, makes, refused};
ghost use Rattle.tool_words.specs.WorkedQuery.{keyless_text, made_plan, plain_plan, sum_and_count_query, sum_and_count_text};
ghost use Rattle.pipe_aggs.specs.declared.query_fault.QueryFault.TheVariants as query_fault;
ghost use Rattle.tool_query.specs.declared.no_query.NoQuery.TheVariants as no_query;
ghost use Rattle.tool_words.specs.declared.refusal.Refusal.TheVariants as refusal;

/// The sum and the count of `v` by `k`, as the one word of a command, and before the names of files.
pub fn sum_and_count_words()
    ensures alone { asked (sum_and_count_text ∷ [])
        ≡ asks (plain_plan (sum_and_count_text ∷ [])) sum_and_count_query }
    ensures files { asked (sum_and_count_text ∷ codes "a" ∷ codes "b" ∷ [])
        ≡ asks (plain_plan (sum_and_count_text ∷ codes "a" ∷ codes "b" ∷ [])) sum_and_count_query }
{}

/// Generated rows.
pub fn generate_words()
    ensures alone { asked (codes "--generate" ∷ codes "7" ∷ [])
        ≡ makes (made_plan 7) (record { seed = 7; rows = 1000; chunk = 50000 }) }
    ensures file { asked (codes "--generate" ∷ codes "7" ∷ codes "a" ∷ []) ≡ refused refusal.Words }
    ensures sink { asked (codes "--generate" ∷ codes "7" ∷ codes "--sink" ∷ codes "text" ∷ [])
        ≡ refused refusal.UnfitSink }
{}

/// Words that are refused.
pub fn refused_words()
    ensures none { asked [] ≡ refused refusal.Words }
    ensures workers { asked (codes "--workers" ∷ codes "0" ∷ sum_and_count_text ∷ [])
        ≡ refused refusal.Words }
    ensures cut { asked (codes "{" ∷ []) ≡ refused (refusal.NoQuery no_query.NotJson) }
    ensures list { asked (codes "[]" ∷ []) ≡ refused (refusal.NoQuery no_query.NotAQuery) }
    ensures keyless { asked (keyless_text ∷ [])
        ≡ refused (refusal.NoQuery (no_query.Faulty query_fault.NoKey)) }
    ensures sink { asked (codes "--sink" ∷ codes "text" ∷ sum_and_count_text ∷ [])
        ≡ refused refusal.UnfitSink }
{}
