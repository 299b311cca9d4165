//! Worked words, as laws over the definitions.

ghost use Rattle.std.specs.Prelude.{◌≡◌, ◌∷◌, [], None, Some, codes};
ghost use Rattle.clap.specs.declared.error.kind.ErrorKind.TheVariants as kind;
ghost use Rattle.pipe_columns.specs.declared.data_type.DataType.TheVariants as dt;
ghost use Rattle.pipe_words.specs.declared.plan.Format.TheVariants as format;
ghost use Rattle.lavzimo_words.specs.Asked.{ask, asked_of, ended, of_columns, of_file, refused};
ghost use Rattle.lavzimo_words.specs.AskedQuery.{shown_columns};
ghost use Rattle.lavzimo_words.specs.Worked.{column_in, in_order, of_files, plain, row_count, text_key};
ghost use Rattle.lavzimo_words.specs.WordsOf.{words_of};
ghost use Rattle.lavzimo_words.specs.declared.asked.Order.TheVariants as order;
ghost use Rattle.lavzimo_words.specs.declared.refusal.Refusal.TheVariants as refusal;
ghost use Rattle.lavzimo_words.specs.declared.role.Role.TheVariants as role;
ghost use Rattle.lavzimo_words.specs.declared.source.Source.TheVariants as source;

/// Keys before what is asked beside them, and options in the order of their first use.
pub fn columns_in_order()
    ensures all { asked_of (codes "--by" ∷ codes "status,hour" ∷ codes "--count" ∷ codes "--sum"
        ∷ codes "bytes" ∷ codes "--mean" ∷ codes "latency" ∷ [])
        ≡ plain (text_key (codes "status") ∷ text_key (codes "hour") ∷ row_count
        ∷ column_in role.Sum (codes "bytes") dt.Int64 (codes "sum_bytes")
        ∷ column_in role.Mean (codes "latency") dt.Int64 (codes "mean_latency") ∷ []) }
    ensures first_use { asked_of (codes "--min" ∷ codes "a" ∷ codes "--sum" ∷ codes "b"
        ∷ codes "--min" ∷ codes "c" ∷ codes "--by" ∷ codes "k" ∷ [])
        ≡ plain (text_key (codes "k") ∷ column_in role.Least (codes "a") dt.Int64 (codes "min_a")
        ∷ column_in role.Least (codes "c") dt.Int64 (codes "min_c")
        ∷ column_in role.Sum (codes "b") dt.Int64 (codes "sum_b") ∷ []) }
{}

/// Types and names.
pub fn types_and_names()
    ensures said { asked_of (codes "--by" ∷ codes "k:u8=code" ∷ codes "--max"
        ∷ codes "day:date" ∷ []) ≡ plain (column_in role.Key (codes "k") dt.UInt8 (codes "code")
        ∷ column_in role.Greatest (codes "day") dt.Date (codes "max_day") ∷ []) }
    ensures tail { asked_of (codes "--by" ∷ codes "a:b" ∷ codes "--first" ∷ codes "a:b=c" ∷ [])
        ≡ plain (text_key (codes "a:b")
        ∷ column_in role.First (codes "a:b") dt.String (codes "c") ∷ []) }
    ensures one_type { asked_of (codes "--by" ∷ codes "hour" ∷ codes "--max" ∷ codes "hour" ∷ [])
        ≡ plain (column_in role.Key (codes "hour") dt.Int64 (codes "hour")
        ∷ column_in role.Greatest (codes "hour") dt.Int64 (codes "max_hour") ∷ []) }
{}

/// An order downwards, bounds, a format and a file.
pub fn orders_and_bounds()
    ensures downwards { asked_of (codes "--by" ∷ codes "path" ∷ codes "--count" ∷ codes "--order"
        ∷ codes "-count" ∷ codes "--limit" ∷ codes "20" ∷ codes "a.csv" ∷ [])
        ≡ ask (of_files (of_columns (record (in_order (text_key (codes "path") ∷ row_count ∷ [])
        (order.Down 1)) { limit = Some 20 })) (codes "a.csv" ∷ [])) }
    ensures query { asked_of (codes "--query" ∷ codes "q.json" ∷ codes "--format"
        ∷ codes "json" ∷ []) ≡ ask (record (of_files (of_file (codes "q.json")) (codes "-" ∷ []))
        { format = format.Json }) }
{}

/// Words that end apart.
pub fn help_and_version()
    ensures help { asked_of (codes "--help" ∷ []) ≡ ended (kind.DisplayHelp ∷ []) }
    ensures version { asked_of (codes "--by" ∷ codes "a" ∷ codes "-V" ∷ [])
        ≡ ended (kind.DisplayVersion ∷ []) }
    ensures unknown { asked_of (codes "--avg" ∷ codes "a" ∷ [])
        ≡ ended (kind.UnknownArgument ∷ []) }
{}

/// Words that are refused.
pub fn refused_words()
    ensures nothing { asked_of (codes "a.csv" ∷ []) ≡ refused refusal.NothingAsked }
    ensures text_sum { asked_of (codes "--sum" ∷ codes "a:text" ∷ [])
        ≡ refused (refusal.Unsuited (codes "sum") (codes "a") dt.String) }
    ensures two_types { asked_of (codes "--by" ∷ codes "a:int,a:text=b" ∷ [])
        ≡ refused (refusal.TwoTypes (codes "a")) }
    ensures double { asked_of (codes "--by" ∷ codes "a,a" ∷ [])
        ≡ refused (refusal.DoubleName (codes "a")) }
    ensures nameless { asked_of (codes "--by" ∷ codes "a,,b" ∷ [])
        ≡ refused (refusal.Nameless (codes "by") []) }
    ensures output { asked_of (codes "--count" ∷ codes "--order" ∷ codes "a" ∷ [])
        ≡ refused (refusal.NoOutput (codes "a")) }
    ensures number { asked_of (codes "--count" ∷ codes "--workers" ∷ codes "0" ∷ [])
        ≡ refused (refusal.NoNumber (codes "workers") (codes "0")) }
    ensures format { asked_of (codes "--count" ∷ codes "--format" ∷ codes "xml" ∷ [])
        ≡ refused (refusal.NoFormat (codes "xml")) }
    ensures beside { asked_of (codes "--query" ∷ codes "q" ∷ codes "--by" ∷ codes "a" ∷ [])
        ≡ refused (refusal.BesideQuery (codes "by")) }
{}

/// Where shown columns come from: behind a sum stands its count, and no key is a hidden one.
pub fn sources()
    ensures keyed { shown_columns (text_key (codes "k")
        ∷ column_in role.Sum (codes "a") dt.Int64 (codes "s")
        ∷ column_in role.Mean (codes "a") dt.Int64 (codes "m") ∷ row_count ∷ [])
        ≡ source.Value 0 ∷ source.Value 1 ∷ source.Mean 3 ∷ source.Value 5 ∷ [] }
    ensures keyless { shown_columns (row_count ∷ []) ≡ source.Value 1 ∷ [] }
{}

/// Words that are written of options, and of files.
pub fn words_of_options()
    ensures { words_of (record { role = role.Key; columns = text_key (codes "k") ∷ [] }
        ∷ record { role = role.Rows; columns = row_count ∷ [] }
        ∷ record {
          role = role.Sum;
          columns = column_in role.Sum (codes "a") dt.Int64 (codes "s")
              ∷ column_in role.Sum (codes "b:c") dt.UInt8 (codes "t") ∷ [];
        } ∷ []) (codes "-" ∷ [])
        ≡ codes "--by=k:text=k" ∷ codes "--count" ∷ codes "--sum=a:i64=s,b:c:u8=t"
        ∷ codes "--" ∷ codes "-" ∷ [] }
{}
