//! Laws of pieces: how many there are, what stands in them, and what one more row does.

ghost use Rattle.std.specs.Prelude.{◌≡◌, ◌≢◌, ◌+◌, ◌/◌, ◌%◌, ◌<◌, ℕ, List, [], ◌∷◌, ◌++◌, length};
ghost use Rattle.pipe_columns.specs.Pieces.{pieces};
ghost use Rattle.pipe_columns.specs.Row.{Row};
ghost use Rattle.pipe_plan.specs.Payloads.{full_pieces, rest_of};
ghost use Rattle.pipe_plan.specs.Replay.{joined_lists};

/// There are as many full pieces as the quotient says, and the remainder is left. Full pieces and
/// the rest are the rows, in order, and so are all pieces.
pub fn pieces_of_rows()
    ensures full { (n : ℕ) (rows : List Row) → 0 < n
        → length (full_pieces n rows) ≡ length rows / n }
    ensures rest { (n : ℕ) (rows : List Row) → 0 < n → length (rest_of n rows) ≡ length rows % n }
    ensures rows { (n : ℕ) (rows : List Row) → 0 < n
        → joined_lists (full_pieces n rows) ++ rest_of n rows ≡ rows }
    ensures pieces { (n : ℕ) (rows : List Row) → 0 < n → joined_lists (pieces n rows) ≡ rows }
{}

/// A row that fills the rest makes a piece of it and leaves nothing; another one joins the rest.
pub fn pieces_with_one_row_more()
    ensures filled { (n : ℕ) (rows : List Row) (x : Row) → 0 < n
        → length (rest_of n rows) + 1 ≡ n
        → full_pieces n (rows ++ x ∷ []) ≡ full_pieces n rows ++ (rest_of n rows ++ x ∷ []) ∷ [] }
    ensures emptied { (n : ℕ) (rows : List Row) (x : Row) → 0 < n
        → length (rest_of n rows) + 1 ≡ n → rest_of n (rows ++ x ∷ []) ≡ [] }
    ensures unfilled { (n : ℕ) (rows : List Row) (x : Row) → 0 < n
        → length (rest_of n rows) + 1 ≢ n → full_pieces n (rows ++ x ∷ []) ≡ full_pieces n rows }
    ensures grown { (n : ℕ) (rows : List Row) (x : Row) → 0 < n
        → length (rest_of n rows) + 1 ≢ n → rest_of n (rows ++ x ∷ []) ≡ rest_of n rows ++ x ∷ [] }
{}

/// More rows keep the full pieces; those of the rest and the new rows follow.
pub fn pieces_with_more_rows()
    ensures full { (n : ℕ) (rows more : List Row) → 0 < n
        → full_pieces n (rows ++ more)
        ≡ full_pieces n rows ++ full_pieces n (rest_of n rows ++ more) }
    ensures rest { (n : ℕ) (rows more : List Row) → 0 < n
        → rest_of n (rows ++ more) ≡ rest_of n (rest_of n rows ++ more) }
{}
