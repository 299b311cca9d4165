//! What the records of a text without a quote are, and what a short number is.

ghost use Rattle.std.specs.Prelude.{◌++◌, ◌≡◌, List, Some, true, ℕ, ℤ};
ghost use Rattle.csv.specs.Reading.{default_config, records};
ghost use Rattle.pipe_scan.specs.Lines.{ends_with_line, has_no_quote, records_of_lines};
ghost use Rattle.pipe_scan.specs.Numbers.{read_number, read_short_number};

/// The records of a text without a quote are its lines that aren't empty, cut at their commas.
pub fn records_are_lines()
    ensures { (xs : List ℕ) → has_no_quote xs ≡ true
        → records default_config xs ≡ records_of_lines xs }
{}

/// Of a text that is cut behind the end of a line, before which there is no quote, the records are
/// those of its parts.
pub fn records_of_parts()
    ensures { (xs ys : List ℕ) → has_no_quote xs ≡ true → ends_with_line xs ≡ true
        → records default_config (xs ++ ys)
        ≡ records default_config xs ++ records default_config ys }
{}

/// A short number is a number.
pub fn short_numbers_are_numbers()
    ensures { (field : List ℕ) (n : ℤ) → read_short_number field ≡ Some n
        → read_number field ≡ Some n }
{}
