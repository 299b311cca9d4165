//! Worked rows, as laws over the definitions: each holds by computation.

ghost use Rattle.std.specs.Prelude.{◌≡◌, ◌∷◌, [], map};
ghost use Rattle.tool_made.specs.Made.{made, made_key, made_value};

/// Three rows in chunks of two, and no row.
pub fn chunks_of_three_rows()
    ensures heights { map (λ c. c.frame.height) (made (record { seed = 7; rows = 3; chunk = 2 })) ≡ 2 ∷ 1 ∷ [] }
    ensures positions { map (λ c. c.chunk_index) (made (record { seed = 7; rows = 3; chunk = 2 })) ≡ 0 ∷ 1 ∷ [] }
    ensures none { made (record { seed = 7; rows = 0; chunk = 2 }) ≡ [] }
    ensures key { made_key 7 200 ≡ 400 }
    ensures value { made_value 300 ≡ 44 }
{}
