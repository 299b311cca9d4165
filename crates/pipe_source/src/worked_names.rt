//! Worked files whose columns are found by their names, as laws over the definitions: each holds by
//! computation.

ghost use Rattle.std.specs.Prelude.{◌≡◌, ◌∷◌, [], codes, None, Some};
ghost use Rattle.pipe_columns.specs.declared.any_value.AnyValue.TheVariants as av;
ghost use Rattle.pipe_csv.specs.CsvRows.{field, header, missing, width};
ghost use Rattle.pipe_csv.specs.Worked.{int, key_value};
ghost use Rattle.pipe_source.specs.CsvChunks.{misfit};
ghost use Rattle.pipe_source.specs.NamedChunks.{named_chunks};
ghost use Rattle.pipe_source.specs.Worked.{chunk_of, indexed_key_value, plain_options, swapped_files};

/// The second file has its columns in another order and one more, the third has a mark of its order of
/// bytes and its names in quotes; the others are no matter.
pub fn named_columns()
    ensures { named_chunks swapped_files (codes "a" ∷ codes "b" ∷ codes "c" ∷ []) key_value
        (record {
          chunk_size = 2;
          n_rows = Some 4;
          row_index = Some (codes "i", 0);
          include_file_path = Some (codes "p");
        }) ≡ record {
          chunks =
              chunk_of indexed_key_value 0
              ((int 0 ∷ int 1 ∷ int 5 ∷ av.Text (codes "a") ∷ []) ∷ [])
              ∷ chunk_of indexed_key_value 1
              ((int 1 ∷ int 1 ∷ int 7 ∷ av.Text (codes "b") ∷ [])
              ∷ (int 2 ∷ int 9 ∷ av.Null ∷ av.Text (codes "b") ∷ []) ∷ [])
              ∷ chunk_of indexed_key_value 2
              ((int 3 ∷ int 2 ∷ int 6 ∷ av.Text (codes "c") ∷ []) ∷ []) ∷ [];
          stop = None;
        } }
{}

/// A column has to be there once, and a file of which one isn't gives no rows. It is told by its number
/// among the named, in row 0, which is the header.
pub fn named_stops()
    ensures lacks { named_chunks ((codes "a", codes "k,w\n1,2\n") ∷ []) (codes "a" ∷ [])
        key_value (plain_options 1)
        ≡ record { chunks = []; stop = Some (misfit (field 1 0 2)) } }
    ensures twice { named_chunks ((codes "a", codes "k,v,k\n1,2,3\n") ∷ []) (codes "a" ∷ [])
        key_value (plain_options 1)
        ≡ record { chunks = []; stop = Some (misfit (field 1 0 1)) } }
    ensures later_file { named_chunks
        ((codes "a", codes "v,k\n5,1\n") ∷ (codes "b", codes "v\n") ∷ [])
        (codes "a" ∷ codes "b" ∷ []) key_value (plain_options 1) ≡ record {
          chunks = chunk_of key_value 0 ((int 1 ∷ int 5 ∷ []) ∷ []) ∷ [];
          stop = Some (misfit (field 2 0 1));
        } }
    ensures no_byte { named_chunks ((codes "a", []) ∷ []) (codes "a" ∷ [])
        key_value (plain_options 1) ≡ record { chunks = []; stop = Some (misfit (header 1)) } }
    ensures no_file { named_chunks [] (codes "a" ∷ [])
        key_value (plain_options 1) ≡ record { chunks = []; stop = Some (misfit (missing 1)) } }
    ensures value { named_chunks ((codes "a", codes "v,w,k\n5,,1\n2,x,y\n") ∷ []) (codes "a" ∷ [])
        key_value (plain_options 1)
        ≡ record { chunks = []; stop = Some (misfit (field 1 2 1)) } }
    ensures width { named_chunks ((codes "a", codes "v,w,k\n5,,1\n2,6\n") ∷ []) (codes "a" ∷ [])
        key_value (plain_options 1)
        ≡ record { chunks = []; stop = Some (misfit (width 1 2)) } }
    ensures no_rows { named_chunks ((codes "a", codes "v,k\n") ∷ []) (codes "a" ∷ [])
        key_value (plain_options 1) ≡ record { chunks = []; stop = None } }
{}

/// Where no column is named, rows are counted, and each has as many fields as its header.
pub fn no_named_columns()
    ensures rows { named_chunks ((codes "a", codes "v,k\n5,1\n,\n") ∷ []) (codes "a" ∷ []) []
        (plain_options 2)
        ≡ record { chunks = chunk_of [] 0 ([] ∷ [] ∷ []) ∷ []; stop = None } }
    ensures width { named_chunks ((codes "a", codes "v,k\n5\n") ∷ []) (codes "a" ∷ []) []
        (plain_options 2)
        ≡ record { chunks = []; stop = Some (misfit (width 1 1)) } }
{}
