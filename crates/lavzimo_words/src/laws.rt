//! What holds of whatever words ask of columns, and of the query that they make: each clause is a
//! law, and stands on an empty function.

ghost use Rattle.std.specs.Prelude.{◌≡◌, ◌≢◌, List, None, ℕ, length, map, take};
ghost use Rattle.pipe_aggs.specs.Faults.{written_fault};
ghost use Rattle.pipe_model.specs.Output.{output_schema};
ghost use Rattle.lavzimo_words.specs.Askable.{ComesToAskable, IsAskable};
ghost use Rattle.lavzimo_words.specs.Asked.{ColumnsSeen, ask, asked_of};
ghost use Rattle.lavzimo_words.specs.AskedQuery.{is_first, keys_in, query_of_words, shown_columns, written_of};
ghost use Rattle.lavzimo_words.specs.InAnswer.{fields_at, shown_fields, value_field};
ghost use Rattle.lavzimo_words.specs.WordsOf.{AreWritable, OptionUse, asked_by, by_keys, columns_of, words_of};

/// Where words ask for columns, these may be asked for.
pub fn words_ask_what_may_be_asked()
    ensures { (words : List (List ℕ)) → ComesToAskable (asked_of words) }
{}

/// The query of columns that may be asked for has no fault.
pub fn asked_queries_have_no_fault()
    ensures { (c : ColumnsSeen) → IsAskable c
        → written_fault (written_of c.columns (is_first c.order)) ≡ None }
{}

/// In the answer of the query each shown column stands where it is said to: the column of its own
/// name, and behind the exact sum of a mean its count.
pub fn shown_columns_are_in_the_answer()
    ensures { (c : ColumnsSeen) → IsAskable c
        → map (fields_at (output_schema (query_of_words c))) (shown_columns c.columns)
        ≡ map shown_fields c.columns }
{}

/// The query keeps the order of first rows where that is asked for, and has no slice.
pub fn asked_queries_have_no_slice()
    ensures order { (c : ColumnsSeen) → (query_of_words c).keeps_order ≡ is_first c.order }
    ensures slice { (c : ColumnsSeen) → (query_of_words c).slice ≡ None }
{}

/// Where there are keys, the query has these alone, and they are the first columns of its answer.
pub fn keys_come_first()
    ensures keys { (c : ColumnsSeen) → length (keys_in c.columns) ≢ 0
        → length (query_of_words c).keys ≡ length (keys_in c.columns) }
    ensures answer { (c : ColumnsSeen) → IsAskable c → length (keys_in c.columns) ≢ 0
        → take (length (keys_in c.columns)) (output_schema (query_of_words c))
        ≡ map value_field (keys_in c.columns) }
{}

/// Words that are written for any keys and whatever is shown beside them are taken, and ask just that.
pub fn written_words_are_taken()
    ensures { (uses : List OptionUse) (files : List (List ℕ)) → AreWritable uses
        → IsAskable (by_keys (columns_of uses)) → length files ≢ 0
        → asked_of (words_of uses files) ≡ ask (asked_by uses files) }
{}
