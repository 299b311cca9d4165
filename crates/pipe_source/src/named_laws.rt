//! Columns that are found by their names are those that stand there, as a law over the definitions.

ghost use Rattle.std.specs.Prelude.{◌≡◌, ◌≤◌, Bool, List, length, ℕ};
ghost use Rattle.narrow_columns.specs.Wanted.{chosen};
ghost use Rattle.pipe_columns.specs.declared.schema.Field.{Field};
ghost use Rattle.pipe_io.specs.Files.{Files};
ghost use Rattle.pipe_source.specs.CsvChunks.{csv_chunks, wanted_chunks};
ghost use Rattle.pipe_source.specs.InOrder.{AreFound, StopsElsewhere};
ghost use Rattle.pipe_source.specs.NamedChunks.{named_chunks};
ghost use Rattle.pipe_source.specs.declared.read_options.CsvReadOptions.{CsvReadOptions};

/// Where files that are read in the order of a schema don't stop at a header or a field, the same is
/// read of their wanted columns by name. A header of another order, and a field of a column that isn't
/// wanted, stop only the reading in order.
pub fn names_agree_with_order()
    ensures { (files : Files) (names : List (List ℕ)) (schema : List Field)
        (options : CsvReadOptions) (wanted : List Bool)
        → AreFound schema → length wanted ≤ length schema
        → StopsElsewhere (csv_chunks files names schema options).stop
        → named_chunks files names (chosen wanted schema) options
        ≡ wanted_chunks options wanted (csv_chunks files names schema options) }
{}
