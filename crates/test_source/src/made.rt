//! What readers and sources are asked for, and the files in memory that they read.

ghost use Rattle.std.specs.Prelude.{◌<◌, IfOk};

use crate::hinted::Hinted;
use pipe_columns::{DataType, Field, Schema, Text};
use pipe_io::{InputFiles, MemoryFiles};
use pipe_source::{ChunkReader, CsvReadOptions, CsvSource};
use std::alloc::{AllocError, Global};

/// The name and the text of a file.
pub(crate) type Named = (&'static str, &'static str);

/// Which files are there and which are read, of which columns; how many rows are a chunk and how many
/// are wanted in all; the first number of a row, where they are numbered and have their file's name; whether
/// columns are found by their names.
#[derive(Clone, Copy)]
pub(crate) struct Asked {
    pub files: &'static [Named],
    pub names: &'static [&'static str],
    pub columns: &'static [(&'static str, DataType)],
    pub chunk_size: usize,
    pub limit: Option<usize>,
    pub first_number: Option<u32>,
    pub by_name: bool,
}

/// The one file `a` of a key and a value, in chunks of two rows.
pub(crate) const PLAIN: Asked = Asked {
    files: &[],
    names: &["a"],
    columns: &[("k", DataType::Int64), ("v", DataType::Int64)],
    chunk_size: 2,
    limit: None,
    first_number: None,
    by_name: false,
};

/// Two files of a key and a value, in chunks of two rows, of which three are wanted, numbered and
/// under their file's name.
pub(crate) const TWO_FILES: Asked = Asked {
    files: &[("a.csv", "k,v\n1,5\n2,6\n"), ("b.csv", "k,v\n1,7\n9,9\n")],
    names: &["a.csv", "b.csv"],
    limit: Some(3),
    first_number: Some(0),
    ..PLAIN
};

/// A file of a name and a text.
fn file_of(alloc: Global, name: &str, text: &str) -> Result<(Text, Vec<u8>), AllocError> {
    let name = Text::new(alloc, name)?;
    Ok((name, Vec::from_slice(alloc, text.as_bytes())?))
}

/// Files in memory.
fn files_of(alloc: Global, files: &[(&str, &str)]) -> Result<Vec<(Text, Vec<u8>)>, AllocError> {
    let mut all = Vec::new(alloc);
    for (name, text) in files {
        all.push(file_of(alloc, name, text)?)?;
    }
    Ok(all)
}

/// Files in memory, of which a call may fail, and of each of which a size may be told.
pub(crate) fn input_of(
    alloc: Global,
    files: &[(&str, &str)],
    failing: &[u64],
    told: Option<usize>,
) -> Result<Hinted, AllocError> {
    let calls = Vec::from_slice(alloc, failing)?;
    let files = MemoryFiles::new(files_of(alloc, files)?, calls);
    Ok(Hinted { files, told })
}

/// The one file `a` of a text.
pub(crate) fn input_of_text(
    alloc: Global,
    text: &str,
    told: Option<usize>,
) -> Result<Hinted, AllocError> {
    input_of(alloc, &[("a", text)], &[], told)
}

/// The names of the files that are read.
fn names_of(alloc: Global, names: &[&str]) -> Result<Vec<Text>, AllocError> {
    let mut texts = Vec::new(alloc);
    for name in names {
        texts.push(Text::new(alloc, name)?)?;
    }
    Ok(texts)
}

/// The field of a column.
fn field_of(alloc: Global, name: &str, dtype: DataType) -> Result<Field, AllocError> {
    let name = Text::new(alloc, name)?;
    Ok(Field { name, dtype })
}

/// The schema of the columns.
fn schema_of(alloc: Global, columns: &[(&str, DataType)]) -> Result<Schema, AllocError> {
    let mut fields = Vec::new(alloc);
    for (name, dtype) in columns {
        fields.push(field_of(alloc, name, *dtype)?)?;
    }
    Ok(Schema::new(fields))
}

/// How files are read.
fn options_of(alloc: Global, asked: &Asked) -> Result<CsvReadOptions, AllocError>
    ensures { IfOk result (λ o. 0 < o.chunk_size) }
{
    if asked.chunk_size == 0 {
        return Err(AllocError);
    }
    let mut options = CsvReadOptions {
        chunk_size: asked.chunk_size,
        n_rows: asked.limit,
        row_index: None,
        include_file_path: None,
    };
    if let Some(number) = asked.first_number {
        options.row_index = Some((Text::new(alloc, "i")?, number));
        options.include_file_path = Some(Text::new(alloc, "p")?);
    }
    Ok(options)
}

/// What a reader is made of.
pub(crate) struct Parts {
    names: Vec<Text>,
    schema: Schema,
    options: CsvReadOptions,
}

fn parts_of(alloc: Global, asked: &Asked) -> Result<Parts, AllocError>
    ensures { IfOk result (λ p. 0 < p.options.chunk_size) }
{
    let names = names_of(alloc, asked.names)?;
    let schema = schema_of(alloc, asked.columns)?;
    Ok(Parts {
        names,
        schema,
        options: options_of(alloc, asked)?,
    })
}

/// A reader of files.
pub(crate) fn reader_of(alloc: Global, asked: &Asked) -> Result<ChunkReader, AllocError> {
    let Parts {
        names,
        schema,
        options,
    } = parts_of(alloc, asked)?;
    if asked.by_name {
        Ok(ChunkReader::by_name(alloc, names, schema, options))
    } else {
        Ok(ChunkReader::new(alloc, names, schema, options))
    }
}

/// A source over the files of an input.
pub(crate) fn source_of<'a, I: InputFiles>(
    alloc: Global,
    input: &'a mut I,
    asked: &Asked,
) -> Result<CsvSource<'a, I>, AllocError> {
    let Parts {
        names,
        schema,
        options,
    } = parts_of(alloc, asked)?;
    if asked.by_name {
        Ok(CsvSource::by_name(alloc, input, names, schema, options))
    } else {
        Ok(CsvSource::new(alloc, input, names, schema, options))
    }
}

/// A source of which every column but the first is wanted.
pub(crate) fn source_without_first<'a, I: InputFiles>(
    alloc: Global,
    input: &'a mut I,
    asked: &Asked,
) -> Result<CsvSource<'a, I>, AllocError> {
    let wanted = vec![in alloc; false]?;
    let Parts {
        names,
        schema,
        options,
    } = parts_of(alloc, asked)?;
    if schema.fields().is_empty() {
        return Err(AllocError);
    }
    CsvSource::of_columns(alloc, input, names, schema, options, wanted)
}
