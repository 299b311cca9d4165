//! Laws of groups and answers: what groups are, and what does not depend on the order of rows.

ghost use Rattle.std.specs.Prelude.{◌≡◌, ◌<◌, ℕ, List, map, true, false};
ghost use Rattle.std.specs.List.{flat_map, list_any, range_with_len};
ghost use Rattle.pipe_columns.specs.declared.any_value.AnyValue.{AnyValue};
ghost use Rattle.pipe_columns.specs.declared.data_chunk.DataChunk.{DataChunk};
ghost use Rattle.pipe_columns.specs.Groups.{AreSortedKeys, IsAscending};
ghost use Rattle.pipe_columns.specs.Place.{place_cmp};
ghost use Rattle.pipe_columns.specs.Row.{Row};
ghost use Rattle.pipe_model.specs.Aggregate.{reads_places};
ghost use Rattle.pipe_model.specs.Answer.{answer, answer_of, answer_reads_places, answer_row, group_cmp, groups};
ghost use Rattle.pipe_model.specs.Counts.{CountAlike};
ghost use Rattle.pipe_model.specs.Partitions.{groups_in, rows_in};
ghost use Rattle.pipe_model.specs.Query.{QueryTree};
ghost use Rattle.pipe_model.specs.Rows.{HaveDistinctPlaces, keys_of, rows};

/// Groups ascend in their order, and are the keys of the rows; no other list is so. Where order is
/// kept, no place may stand twice.
pub fn groups_are_sorted_keys()
    ensures are { (rs : List Row) (q : QueryTree) (partitions : ℕ)
        → (q.keeps_order ≡ true → HaveDistinctPlaces rs)
        → AreSortedKeys (group_cmp q partitions rs) (keys_of rs) (groups rs q partitions) }
    ensures sole { (rs : List Row) (q : QueryTree) (partitions : ℕ) (keys : List (List AnyValue))
        → (q.keeps_order ≡ true → HaveDistinctPlaces rs)
        → AreSortedKeys (group_cmp q partitions rs) (keys_of rs) keys
        → keys ≡ groups rs q partitions }
{}

/// Without kept order, groups are those of each partition, joined, and so are their rows.
pub fn groups_by_partition()
    ensures joined { (rs : List Row) (q : QueryTree) (partitions : ℕ)
        → q.keeps_order ≡ false → 0 < partitions
        → groups rs q partitions
        ≡ flat_map (λ p. groups_in partitions q p rs) (range_with_len 0 partitions) }
    ensures alone { (rs : List Row) (q : QueryTree) (partitions p : ℕ) → q.keeps_order ≡ false
        → groups (rows_in partitions q p rs) q partitions ≡ groups_in partitions q p rs }
    ensures rows { (rs : List Row) (q : QueryTree) (partitions : ℕ)
        → q.keeps_order ≡ false → 0 < partitions
        → map (answer_row q rs) (groups rs q partitions)
        ≡ flat_map
        (λ p. map (answer_row q (rows_in partitions q p rs)) (groups_in partitions q p rs))
        (range_with_len 0 partitions) }
{}

/// Kept order does not depend on the number of partitions.
pub fn kept_order_has_no_partitions()
    ensures { (rs : List Row) (q : QueryTree) (m n : ℕ) → q.keeps_order ≡ true
        → answer_of rs q m ≡ answer_of rs q n }
{}

/// The rows of chunks stand at ascending places, so no place stands twice among them.
pub fn places_of_rows()
    ensures ascend { (chunks : List DataChunk) (q : QueryTree)
        → IsAscending place_cmp (map (λ r. r.place) (rows chunks q)) }
    ensures distinct { (chunks : List DataChunk) (q : QueryTree)
        → HaveDistinctPlaces (rows chunks q) }
{}

/// Rows in which every test counts alike have the same groups, the same row of each, and one
/// answer. Where groups come in order, or an aggregate is a first or a last, no place may stand
/// twice.
pub fn same_counts_same_answer()
    ensures groups { (rs others : List Row) (q : QueryTree) (partitions : ℕ) → CountAlike rs others
        → (q.keeps_order ≡ true → HaveDistinctPlaces rs)
        → groups rs q partitions ≡ groups others q partitions }
    ensures row { (rs others : List Row) (q : QueryTree) (key : List AnyValue)
        → CountAlike rs others
        → (list_any (λ a. reads_places a.kind) q.aggs ≡ true → HaveDistinctPlaces rs)
        → answer_row q rs key ≡ answer_row q others key }
    ensures answer { (rs others : List Row) (q : QueryTree) (partitions : ℕ) → CountAlike rs others
        → (answer_reads_places q ≡ true → HaveDistinctPlaces rs)
        → answer_of rs q partitions ≡ answer_of others q partitions }
    ensures chunks { (chunks : List DataChunk) (rs : List Row) (q : QueryTree) (partitions : ℕ)
        → CountAlike (rows chunks q) rs → answer chunks q partitions ≡ answer_of rs q partitions }
{}
