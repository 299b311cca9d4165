//! Laws on the chunks of generated rows.

ghost use Rattle.std.specs.Prelude.{◌≡◌, ◌<◌, ◌≤◌, All, length};
ghost use Rattle.pipe_columns.specs.Frame.{FitsSchema};
ghost use Rattle.pipe_model.specs.Rows.{total_height};
ghost use Rattle.tool_made.specs.Made.{made};
ghost use Rattle.tool_made.specs.MadeQuery.{made_schema};
ghost use Rattle.tool_made.specs.declared.made.Made.{Made};

/// The chunks have the columns `k` and `v`, and all the rows together; there are no more chunks than
/// rows.
pub fn chunks_of_generated_rows()
    ensures fit { (m : Made) → All (λ c. FitsSchema made_schema c.frame) (made m) }
    ensures rows { (m : Made) → 0 < m.chunk → total_height (made m) ≡ m.rows }
    ensures few { (m : Made) → 0 < m.chunk → length (made m) ≤ m.rows }
{}
