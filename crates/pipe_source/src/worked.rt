//! Worked files, as laws over the definitions: each holds by computation.

ghost use Rattle.std.specs.Prelude.{◌≡◌, ◌∷◌, [], codes, None, Some};
ghost use Rattle.pipe_columns.specs.declared.any_value.AnyValue.TheVariants as av;
ghost use Rattle.pipe_csv.specs.CsvRows.{field, header, missing, width};
ghost use Rattle.pipe_csv.specs.Worked.{int, key_value};
ghost use Rattle.pipe_source.specs.CsvChunks.{csv_chunks, misfit, too_large};
ghost use Rattle.pipe_source.specs.Worked.{chunk_of, indexed_key_value, plain_options, two_files};

/// Two files in chunks of two rows, of which three are wanted, numbered, and under the file's name.
pub fn chunks_of_two_files()
    ensures { csv_chunks two_files (codes "a.csv" ∷ codes "b.csv" ∷ codes "c.csv" ∷ []) key_value
        (record {
          chunk_size = 2;
          n_rows = Some 3;
          row_index = Some (codes "i", 0);
          include_file_path = Some (codes "p");
        }) ≡ record {
          chunks =
              chunk_of indexed_key_value 0
              ((int 0 ∷ int 1 ∷ int 5 ∷ av.Text (codes "a.csv") ∷ [])
              ∷ (int 1 ∷ int 2 ∷ int 6 ∷ av.Text (codes "a.csv") ∷ []) ∷ [])
              ∷ chunk_of indexed_key_value 1
              ((int 2 ∷ int 1 ∷ int 7 ∷ av.Text (codes "b.csv") ∷ []) ∷ []) ∷ [];
          stop = None;
        } }
{}

/// Rows that aren't wanted are not looked at, and a file of the first place that doesn't fit gives
/// no rows.
pub fn chunks_up_to_a_stop()
    ensures missing { csv_chunks two_files (codes "a.csv" ∷ codes "c.csv" ∷ codes "b.csv" ∷ [])
        key_value (plain_options 5) ≡ record {
          chunks = chunk_of key_value 0
              ((int 1 ∷ int 5 ∷ []) ∷ (int 2 ∷ int 6 ∷ []) ∷ []) ∷ [];
          stop = Some (misfit (missing 2));
        } }
    ensures field { csv_chunks ((codes "a", codes "k,v\n1,5\n2,12x\n") ∷ []) (codes "a" ∷ [])
        key_value (plain_options 1)
        ≡ record { chunks = []; stop = Some (misfit (field 1 2 2)) } }
    ensures header { csv_chunks ((codes "a", codes "k,w\n") ∷ []) (codes "a" ∷ [])
        key_value (plain_options 1) ≡ record { chunks = []; stop = Some (misfit (header 1)) } }
    ensures no_byte { csv_chunks ((codes "a", []) ∷ []) (codes "a" ∷ [])
        key_value (plain_options 1) ≡ record { chunks = []; stop = Some (misfit (header 1)) } }
    ensures width { csv_chunks ((codes "a", codes "k,v\n1") ∷ []) (codes "a" ∷ [])
        key_value (plain_options 1) ≡ record { chunks = []; stop = Some (misfit (width 1 1)) } }
    ensures behind_the_limit { csv_chunks ((codes "a", codes "k,v\n1,5\n2,12x\n") ∷ [])
        (codes "a" ∷ codes "c" ∷ []) key_value
        (record { chunk_size = 3; n_rows = Some 1; row_index = None; include_file_path = None })
        ≡ record { chunks = chunk_of key_value 0 ((int 1 ∷ int 5 ∷ []) ∷ []) ∷ []; stop = None } }
    ensures last_number { csv_chunks two_files (codes "a.csv" ∷ []) key_value
        (record {
          chunk_size = 3;
          n_rows = None;
          row_index = Some (codes "i", 4294967295);
          include_file_path = None;
        }) ≡ record { chunks = []; stop = Some too_large } }
{}
