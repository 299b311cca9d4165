//! What groups give that hold the rows of a query: its answer.

ghost use Rattle.std.specs.Prelude.{◌≡◌, All, false, length, List, map, Option, option_map, true, ℕ};
ghost use Rattle.std.specs.List.{IsDistinct};
ghost use Rattle.std.specs.Ordering.{eq_by_cmp};
ghost use Rattle.pipe_columns.specs.declared.any_value.AnyValue.{AnyValue};
ghost use Rattle.pipe_columns.specs.declared.place.Place.{Place};
ghost use Rattle.pipe_columns.specs.Frame.{fields_of, frame_of, FrameData};
ghost use Rattle.pipe_columns.specs.Groups.{HaveSameElements, sorted_keys};
ghost use Rattle.pipe_columns.specs.Place.{first_entry, place_cmp};
ghost use Rattle.pipe_columns.specs.Row.{Row};
ghost use Rattle.pipe_columns.specs.Slice.{sliced};
ghost use Rattle.pipe_inputs.specs.RowTypes.{IsRowOf};
ghost use Rattle.pipe_model.specs.Answer.{answer_of, answer_row, groups, rows_at, tuple_cmp};
ghost use Rattle.pipe_model.specs.Output.{output_schema};
ghost use Rattle.pipe_model.specs.Query.{QueryTree};
ghost use Rattle.pipe_model.specs.Rows.{HaveDistinctPlaces};
ghost use Rattle.pipe_groups.specs.Given.{in_order, IsFrameOfGroups};
ghost use Rattle.pipe_groups.specs.Groups.{Group};
ghost use Rattle.pipe_groups.specs.Placed.{rows_by_place};
ghost use Rattle.pipe_groups.specs.QueryRows.{ArePlaced, ArePlacedRows, HoldRowsOf};
ghost use Rattle.pipe_groups.specs.Shape.{shape_of};

/// What groups give in the order of their keys: a row of the answer for each key that a slice keeps,
/// and so the answer where no order is kept. Their first places are those of the keys' rows.
pub fn what_groups_give()
    ensures rows { (q : QueryTree) (rs : List Row) (gs : List Group) (slice : Option (ℕ × ℕ))
        (f : FrameData) → HoldRowsOf q gs rs → HaveDistinctPlaces rs
        → IsFrameOfGroups (shape_of q) (sliced slice (in_order gs)) f
        → f ≡ frame_of (output_schema q)
        (map (answer_row q rs) (sliced slice (sorted_keys tuple_cmp (map (λ r. r.key) rs)))) }
    ensures answer { (q : QueryTree) (rs : List Row) (gs : List Group) (f : FrameData)
        → HoldRowsOf q gs rs → HaveDistinctPlaces rs → q.keeps_order ≡ false
        → IsFrameOfGroups (shape_of q) (sliced q.slice (in_order gs)) f → f ≡ answer_of rs q 1 }
    ensures firsts { (q : QueryTree) (rs : List Row) (gs : List Group) → HoldRowsOf q gs rs
        → map (λ g. g.first) (in_order gs)
        ≡ map (λ k. option_map (λ e. e.0) (first_entry (rows_at rs k)))
        (sorted_keys tuple_cmp (map (λ r. r.key) rs)) }
{}

/// What groups give with their first places: placed rows of their keys, as many places as rows and
/// none twice, and where order is kept, by place, the answer.
pub fn what_placed_groups_give()
    ensures placed { (q : QueryTree) (rs : List Row) (gs : List Group) (frame : FrameData)
        (firsts : List Place) → HoldRowsOf q gs rs → HaveDistinctPlaces rs
        → ArePlaced (shape_of q) gs frame firsts
        → ArePlacedRows q rs (sorted_keys tuple_cmp (map (λ r. r.key) rs)) frame firsts }
    ensures apart { (q : QueryTree) (rs : List Row) (gs : List Group) (frame : FrameData)
        (firsts : List Place) → HoldRowsOf q gs rs → HaveDistinctPlaces rs
        → ArePlaced (shape_of q) gs frame firsts
        → (length firsts ≡ frame.height) × IsDistinct (eq_by_cmp place_cmp) firsts }
    ensures answer { (q : QueryTree) (rs : List Row) (gs : List Group) (frame : FrameData)
        (firsts : List Place) → HoldRowsOf q gs rs → HaveDistinctPlaces rs
        → ArePlaced (shape_of q) gs frame firsts → q.keeps_order ≡ true → (f : FrameData)
        → f ≡ frame_of (fields_of frame.columns) (sliced q.slice (rows_by_place firsts frame))
        → f ≡ answer_of rs q 1 }
{}

/// What placed rows of the keys of rows give, in whatever order the keys come: no place stands twice
/// where no key does, and where order is kept, by place, they are the rows of the answer.
pub fn what_placed_rows_give()
    ensures apart { (q : QueryTree) (rs : List Row) (keys : List (List AnyValue))
        (frame : FrameData) (firsts : List Place) → HaveDistinctPlaces rs
        → HaveSameElements keys (map (λ r. r.key) rs) → ArePlacedRows q rs keys frame firsts
        → IsDistinct (eq_by_cmp tuple_cmp) keys
        → (length firsts ≡ frame.height) × IsDistinct (eq_by_cmp place_cmp) firsts }
    ensures rows { (q : QueryTree) (rs : List Row) (keys : List (List AnyValue))
        (frame : FrameData) (firsts : List Place) → HaveDistinctPlaces rs
        → HaveSameElements keys (map (λ r. r.key) rs) → ArePlacedRows q rs keys frame firsts
        → All (IsRowOf q) rs → q.keeps_order ≡ true
        → rows_by_place firsts frame ≡ map (answer_row q rs) (groups rs q 1) }
    ensures answer { (q : QueryTree) (rs : List Row) (keys : List (List AnyValue))
        (frame : FrameData) (firsts : List Place) → HaveDistinctPlaces rs
        → HaveSameElements keys (map (λ r. r.key) rs) → ArePlacedRows q rs keys frame firsts
        → All (IsRowOf q) rs → q.keeps_order ≡ true → (f : FrameData)
        → f ≡ frame_of (fields_of frame.columns) (sliced q.slice (rows_by_place firsts frame))
        → f ≡ answer_of rs q 1 }
{}
