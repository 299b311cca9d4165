//! Worked means, orders and texts, as laws over the definitions: each holds by computation.

ghost use Rattle.std.specs.Prelude.{◌≡◌, ◌∷◌, ◌^◌, ◌-◌, [], codes, false, negsuc, pos, true, None, Some};
ghost use Rattle.pipe_columns.specs.declared.any_value.AnyValue.TheVariants as av;
ghost use Rattle.lavzimo_rows.specs.declared.row_order.RowOrder.TheVariants as order;
ghost use Rattle.lavzimo_rows.specs.Decimal.{decimal_text};
ghost use Rattle.lavzimo_rows.specs.Mean.{mean_micros, mean_value};
ghost use Rattle.lavzimo_rows.specs.Shown.{kept_rows};
ghost use Rattle.lavzimo_rows.specs.Texts.{csv_shown, json_shown};
ghost use Rattle.lavzimo_rows.specs.Worked.{by_mean, cities, in_order_of, int, row};

/// Means at a half, below 0, of the least and the greatest sums, and of no value.
pub fn means_of_sums()
    ensures whole { mean_micros (pos 24) 2 ≡ pos 12000000 }
    ensures third { mean_micros (pos 1) 3 ≡ pos 333333 }
    ensures two_thirds { mean_micros (negsuc 1) 3 ≡ negsuc 666666 }
    ensures half_to_even { mean_micros (pos 1) 400000 ≡ pos 2 }
    ensures half_to_next { mean_micros (pos 3) 400000 ≡ pos 8 }
    ensures below_zero { mean_micros (negsuc 2) 400000 ≡ negsuc 7 }
    ensures nearly_nothing { mean_micros (negsuc 0) 2000000 ≡ pos 0 }
    ensures greatest { mean_micros (pos (2 ^ 127 - 1)) 1
        ≡ pos 170141183460469231731687303715884105727000000 }
    ensures none { mean_value av.Null (int 0) ≡ av.Null }
{}

/// Millionths as decimal numbers.
pub fn decimals()
    ensures half { decimal_text (pos 12500000) ≡ codes "12.5" }
    ensures whole { decimal_text (pos 12000000) ≡ codes "12" }
    ensures below_one { decimal_text (negsuc 333332) ≡ codes "-0.333333" }
    ensures least { decimal_text (pos 1) ≡ codes "0.000001" }
    ensures zeros { decimal_text (pos 10050000) ≡ codes "10.05" }
    ensures nothing { decimal_text (pos 0) ≡ codes "0" }
{}

/// Rows by their keys, and by a mean downwards, of which two show the same; and windows of these.
pub fn orders_of_rows()
    ensures keys { kept_rows (in_order_of order.Key 0 None) cities
        ≡ row av.Null 4 4 ∷ row (av.Text (codes "Bonn")) 10 4
        ∷ row (av.Text (codes "Oslo")) 5 2 ∷ [] }
    ensures mean { kept_rows (in_order_of (by_mean true) 0 None) cities
        ≡ row (av.Text (codes "Bonn")) 10 4 ∷ row (av.Text (codes "Oslo")) 5 2
        ∷ row av.Null 4 4 ∷ [] }
    ensures upwards { kept_rows (in_order_of (by_mean false) 1 (Some 1)) cities
        ≡ row (av.Text (codes "Bonn")) 10 4 ∷ [] }
    ensures first { kept_rows (in_order_of order.First 2 None) cities
        ≡ row (av.Text (codes "Bonn")) 10 4 ∷ [] }
{}

/// The texts of two rows.
pub fn texts_of_rows()
    ensures csv { csv_shown (in_order_of (by_mean true) 1 None) cities
        ≡ codes "city,mean\nOslo,2.5\n,1\n" }
    ensures json { json_shown (in_order_of (by_mean true) 1 None) cities
        ≡ codes "{\"city\":\"Oslo\",\"mean\":2.5}\n{\"city\":null,\"mean\":1}\n" }
{}
