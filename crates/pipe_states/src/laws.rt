//! Laws of saved states: regrouped and merged they come to what all their rows come to.

ghost use Rattle.std.specs.Prelude.{◌≡◌, ◌<◌, ◌++◌, ℕ, List, All, length, map, true};
ghost use Rattle.std.specs.List.{flat_map, list_any};
ghost use Rattle.pipe_columns.specs.declared.data_chunk.DataChunk.{DataChunk};
ghost use Rattle.pipe_columns.specs.Row.{Row};
ghost use Rattle.pipe_model.specs.Aggregate.{reads_places};
ghost use Rattle.pipe_model.specs.Answer.{answer, answer_of};
ghost use Rattle.pipe_model.specs.Query.{QueryTree};
ghost use Rattle.pipe_model.specs.Rows.{HaveDistinctPlaces, rows_from};
ghost use Rattle.pipe_states.specs.Fair.{IsFair};
ghost use Rattle.pipe_states.specs.Parts.{IsInRange, kept_rows, LieApart, Part, part_of, parts_from, rows_of_parts, saved};
ghost use Rattle.pipe_states.specs.Regrouped.{end_of, first_of, kept, merged_states, regrouped, regrouped_rows, rows_of_states, with_keys};
ghost use Rattle.pipe_states.specs.States.{state, state_rows};
ghost use Rattle.pipe_states.specs.Together.{FollowOn};

/// The states of parts whose rows lie in ranges of which no two share a number, regrouped by some
/// of the key columns, in whatever order the states stand: a row for each distinct kept tuple of
/// all rows, in order of tuple, with each aggregate over all rows with that tuple. So it is the
/// answer, with one partition, of the query with those keys alone.
pub fn regrouping_law()
    ensures tuples { (q : QueryTree) (parts : List Part) (keep : List ℕ) → LieApart parts
        → regrouped_rows q (kept keep) (rows_of_states (map (saved q) parts))
        ≡ state_rows q (kept_rows keep (rows_of_parts parts)) }
    ensures answer { (q : QueryTree) (parts : List Part) (keep : List ℕ) → LieApart parts
        → regrouped q (map (saved q) parts) keep
        ≡ answer_of (kept_rows keep (rows_of_parts parts)) (with_keys q keep) 1 }
    ensures places { (q : QueryTree) (parts : List Part) (keep : List ℕ)
        → (list_any (λ a. reads_places a.kind) q.aggs ≡ true
        → HaveDistinctPlaces (rows_of_parts parts))
        → regrouped q (map (saved q) parts) keep
        ≡ answer_of (kept_rows keep (rows_of_parts parts)) (with_keys q keep) 1 }
{}

/// The states of lists of chunks that are saved one behind another, regrouped: the answer over all
/// chunks of the query with the kept keys alone.
pub fn regrouping_of_chunks()
    ensures { (q : QueryTree) (lists : List (List DataChunk)) (keep : List ℕ)
        → All (λ i. i < length q.keys) keep
        → regrouped q (map (saved q) (parts_from q 0 lists)) keep
        ≡ answer (flat_map (λ chunks. chunks) lists) (with_keys q keep) 1 }
{}

/// States of parts whose rows lie apart, merged, are the state of all their rows: so are fair ones
/// of which each begins where the one before ends.
pub fn merging_law()
    ensures follow { (q : QueryTree) (parts : List Part) → All IsInRange parts
        → All IsFair (map (saved q) parts) → FollowOn (map (saved q) parts)
        → merged_states q (map (saved q) parts)
        ≡ state q (rows_of_parts parts) (first_of (map (saved q) parts))
        (end_of (map (saved q) parts)) }
    ensures apart { (q : QueryTree) (parts : List Part) → LieApart parts
        → merged_states q (map (saved q) parts)
        ≡ state q (rows_of_parts parts) (first_of (map (saved q) parts))
        (end_of (map (saved q) parts)) }
{}

/// The rows of chunks stand in their range, each at a place of its own; by some keys alone they are
/// the rows with that part of their keys.
pub fn rows_of_chunks()
    ensures in_range { (q : QueryTree) (first : ℕ) (chunks : List DataChunk)
        → IsInRange (part_of q first chunks) }
    ensures distinct { (parts : List Part) → LieApart parts
        → HaveDistinctPlaces (rows_of_parts parts) }
    ensures keys { (q : QueryTree) (keep : List ℕ) (first : ℕ) (chunks : List DataChunk)
        → All (λ i. i < length q.keys) keep
        → rows_from (with_keys q keep) first chunks ≡ kept_rows keep (rows_from q first chunks) }
{}
