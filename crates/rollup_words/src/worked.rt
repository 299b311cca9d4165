//! Worked words, as laws over the definitions.

ghost use Rattle.std.specs.Prelude.{◌≡◌, ◌∷◌, [], codes};
ghost use Rattle.pipe_aggs.specs.declared.query_fault.QueryFault.TheVariants as query_fault;
ghost use Rattle.pipe_states.specs.Worked.{by_two};
ghost use Rattle.rollup_words.specs.Asked.{asked, refused, rolls, saves};
ghost use Rattle.rollup_words.specs.Worked.{by_two_text, keyless_text, ordered_text, sliced_text};
ghost use Rattle.rollup_words.specs.declared.refusal.Refusal.TheVariants as refusal;
ghost use Rattle.tool_query.specs.declared.no_query.NoQuery.TheVariants as no_query;

/// Words that ask for a state, and for states regrouped by one key or by both in another order.
pub fn words_that_ask()
    ensures save { asked
        (codes "save" ∷ by_two_text ∷ codes "0000000007" ∷ codes "a" ∷ codes "b" ∷ [])
        ≡ saves by_two 7 (codes "a" ∷ codes "b" ∷ []) }
    ensures roll { asked (codes "roll" ∷ by_two_text ∷ codes "[\"k\"]" ∷ codes "a" ∷ [])
        ≡ rolls by_two (0 ∷ []) (codes "a" ∷ []) }
    ensures turned { asked (codes "roll" ∷ by_two_text ∷ codes "[\"g\",\"k\"]" ∷ codes "a" ∷ [])
        ≡ rolls by_two (1 ∷ 0 ∷ []) (codes "a" ∷ []) }
{}

/// Words that are refused, whatever stands in the place of the query and of the keys.
pub fn words_refused()
    ensures none { asked [] ≡ refused refusal.Words }
    ensures no_file { asked (codes "roll" ∷ codes "{" ∷ codes "{" ∷ []) ≡ refused refusal.Words }
    ensures other { asked (codes "show" ∷ codes "{" ∷ codes "{" ∷ codes "a" ∷ [])
        ≡ refused refusal.Words }
    ensures no_digits { asked (codes "save" ∷ codes "{" ∷ [] ∷ codes "a" ∷ [])
        ≡ refused refusal.Words }
    ensures sign { asked (codes "save" ∷ codes "{" ∷ codes "+1" ∷ codes "a" ∷ [])
        ≡ refused refusal.Words }
    ensures eleven { asked (codes "save" ∷ codes "{" ∷ codes "00000000000" ∷ codes "a" ∷ [])
        ≡ refused refusal.Words }
    ensures above { asked (codes "save" ∷ codes "{" ∷ codes "4294967296" ∷ codes "a" ∷ [])
        ≡ refused refusal.Words }
{}

/// Queries that are refused, before the keys are looked at.
pub fn queries_refused()
    ensures cut { asked (codes "save" ∷ codes "{" ∷ codes "0" ∷ codes "a" ∷ [])
        ≡ refused (refusal.Query no_query.NotJson) }
    ensures list { asked (codes "roll" ∷ codes "[]" ∷ codes "{" ∷ codes "a" ∷ [])
        ≡ refused (refusal.Query no_query.NotAQuery) }
    ensures keyless { asked (codes "roll" ∷ keyless_text ∷ codes "{" ∷ codes "a" ∷ [])
        ≡ refused (refusal.Query (no_query.Faulty query_fault.NoKey)) }
    ensures sliced { asked (codes "roll" ∷ sliced_text ∷ codes "{" ∷ codes "a" ∷ [])
        ≡ refused refusal.Sliced }
    ensures ordered { asked (codes "save" ∷ ordered_text ∷ codes "0" ∷ codes "a" ∷ [])
        ≡ refused refusal.Sliced }
{}

/// Keys that are refused.
pub fn keys_refused()
    ensures cut { asked (codes "roll" ∷ by_two_text ∷ codes "[" ∷ codes "a" ∷ [])
        ≡ refused refusal.Keys }
    ensures no_list { asked (codes "roll" ∷ by_two_text ∷ codes "\"k\"" ∷ codes "a" ∷ [])
        ≡ refused refusal.Keys }
    ensures none { asked (codes "roll" ∷ by_two_text ∷ codes "[]" ∷ codes "a" ∷ [])
        ≡ refused refusal.Keys }
    ensures unknown { asked (codes "roll" ∷ by_two_text ∷ codes "[\"v\"]" ∷ codes "a" ∷ [])
        ≡ refused refusal.Keys }
    ensures twice { asked (codes "roll" ∷ by_two_text ∷ codes "[\"k\",\"k\"]" ∷ codes "a" ∷ [])
        ≡ refused refusal.Keys }
    ensures aggregate { asked (codes "roll" ∷ by_two_text ∷ codes "[\"k\",\"s\"]" ∷ codes "a" ∷ [])
        ≡ refused refusal.Keys }
{}
