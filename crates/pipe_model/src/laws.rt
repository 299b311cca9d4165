//! Laws of aggregates and answers: what does not depend on the order of rows.

ghost use Rattle.std.specs.Prelude.{◌≡◌, ◌↔◌, All, ℕ, List, ◌∷◌, ◌++◌, true, false};
ghost use Rattle.std.specs.List.Sorted.{IsPermutation};
ghost use Rattle.std.specs.Option.{option_to_list};
ghost use Rattle.std.specs.Ordering.{flip_args};
ghost use Rattle.pipe_columns.specs.declared.any_value.AnyValue.{AnyValue};
ghost use Rattle.pipe_columns.specs.declared.data_chunk.DataChunk.{DataChunk};
ghost use Rattle.pipe_columns.specs.declared.data_type.DataType.{DataType};
ghost use Rattle.pipe_columns.specs.declared.place.Place.{Place};
ghost use Rattle.pipe_columns.specs.AnyValue.{value_cmp};
ghost use Rattle.pipe_columns.specs.Place.{DistinctPlaces, first_entry, last_entry};
ghost use Rattle.pipe_columns.specs.Row.{Row};
ghost use Rattle.pipe_model.specs.Aggregate.{agg, extreme, greater, lesser, reads_places};
ghost use Rattle.pipe_model.specs.Answer.{answer, inputs_at, rows_at};
ghost use Rattle.pipe_model.specs.Counts.{CountAlike};
ghost use Rattle.pipe_model.specs.Kind.{Kind};
ghost use Rattle.pipe_model.specs.Least.{by_place, from_last, HoldsLeast, IsLeast};
ghost use Rattle.pipe_model.specs.Merged.{merged};
ghost use Rattle.pipe_model.specs.Query.{QueryTree};
ghost use Rattle.pipe_model.specs.Rows.{HaveDistinctPlaces};

/// Every test counts alike in two lists of rows exactly where one is the other in some order.
pub fn counts_and_orders()
    ensures { (rs others : List Row) → CountAlike rs others ↔ IsPermutation rs others }
{}

/// An aggregate does not depend on the order of its list, where no place stands twice if it is a
/// first or a last.
pub fn order_of_entries()
    ensures { (k : Kind) (t : DataType) (xs ys : List (Place × AnyValue)) → IsPermutation xs ys
        → (reads_places k ≡ true → DistinctPlaces xs) → agg k t xs ≡ agg k t ys }
{}

/// A least value is one of the values than which none is lesser, and a greatest one likewise. The
/// first entry is one at the least place, and the last one at the greatest.
pub fn extremes_of_entries()
    ensures least { (v : AnyValue) (vs : List AnyValue)
        → IsLeast value_cmp (extreme lesser (v ∷ vs)) (v ∷ vs) }
    ensures greatest { (v : AnyValue) (vs : List AnyValue)
        → IsLeast (flip_args value_cmp) (extreme greater (v ∷ vs)) (v ∷ vs) }
    ensures first { (entries : List (Place × AnyValue))
        → HoldsLeast by_place (first_entry entries) entries }
    ensures last { (entries : List (Place × AnyValue))
        → HoldsLeast from_last (last_entry entries) entries }
{}

/// Rows in which every test counts alike have the same aggregate of each key, where no place stands
/// twice if it is a first or a last.
pub fn same_counts_same_aggregates()
    ensures { (rs others : List Row) (key : List AnyValue) (j : ℕ) (k : Kind) (t : DataType)
        → CountAlike rs others → (reads_places k ≡ true → HaveDistinctPlaces rs)
        → agg k t (inputs_at j (rows_at rs key)) ≡ agg k t (inputs_at j (rows_at others key)) }
{}

/// What an aggregate gives of two joined lists follows from what it gives of each; the first entry
/// of two joined lists is the first of both, and the last one the last.
pub fn aggregates_of_joined_lists()
    ensures values { (k : Kind) (t : DataType) (xs ys : List (Place × AnyValue))
        → reads_places k ≡ false → agg k t (xs ++ ys) ≡ merged k t (agg k t xs) (agg k t ys) }
    ensures first { (xs ys : List (Place × AnyValue)) → DistinctPlaces (xs ++ ys)
        → first_entry (xs ++ ys)
        ≡ first_entry (option_to_list (first_entry xs) ++ option_to_list (first_entry ys)) }
    ensures last { (xs ys : List (Place × AnyValue)) → DistinctPlaces (xs ++ ys)
        → last_entry (xs ++ ys)
        ≡ last_entry (option_to_list (last_entry xs) ++ option_to_list (last_entry ys)) }
{}

/// No column of an answer is flagged as sorted.
pub fn answers_are_unsorted()
    ensures { (chunks : List DataChunk) (q : QueryTree) (partitions : ℕ)
        → All (λ c. c.sorted ≡ false) (answer chunks q partitions).columns }
{}
