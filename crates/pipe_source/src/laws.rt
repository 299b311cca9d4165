//! What holds of all chunks of files, as laws over the definitions.

ghost use Rattle.std.specs.Prelude.{All, List, ℕ};
ghost use Rattle.pipe_columns.specs.declared.schema.Field.{Field};
ghost use Rattle.pipe_columns.specs.Frame.{FitsSchema};
ghost use Rattle.pipe_io.specs.Files.{Files};
ghost use Rattle.pipe_source.specs.CsvChunks.{csv_chunks, csv_chunks_from, source_fields};
ghost use Rattle.pipe_source.specs.declared.read_options.CsvReadOptions.{CsvReadOptions};
ghost use Rattle.pipe_source.specs.declared.source_place.SourcePlace.{SourcePlace};

/// Each chunk of files has the fields of their source, from whatever place on.
pub fn chunks_have_fields()
    ensures all { (options : CsvReadOptions) (schema : List Field) (files : Files)
        (names : List (List ℕ)) → All (λ c. FitsSchema (source_fields options schema) c.frame)
        (csv_chunks files names schema options).chunks }
    ensures rest { (options : CsvReadOptions) (schema : List Field) (files : Files)
        (at : SourcePlace) (names : List (List ℕ))
        → All (λ c. FitsSchema (source_fields options schema) c.frame)
        (csv_chunks_from options schema files at names).chunks }
{}
