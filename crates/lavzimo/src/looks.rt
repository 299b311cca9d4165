//! Second looks at files that were not read to their end. They are only tested.

use csv::{ByteRecord, Reader, ReaderBuilder};
use lavzimo_answer::{Look, Looks, Names};
use pipe_columns::Text;
use pipe_csv::CsvError;
use pipe_io::MOST_FILE_BYTES;
use std::alloc::{AllocError, Global};
use std::fs::{self, File, Files};
use std::io::{Read, Seek, SeekFrom};
use std::str;

/// Looks at the files of a runtime.
#[derive(Drop)]
pub struct RealLooks<'a, R> {
    rt: &'a R,
    alloc: Global,
}

impl<'a, R> RealLooks<'a, R> {
    pub fn new(rt: &'a R, alloc: Global) -> RealLooks<'a, R> {
        RealLooks { rt, alloc }
    }
}

/// From how many bytes on no more of a text is told.
const MOST_TOLD: usize = 80;

/// How many bytes are looked at for the first that is no end of a line.
const MOST_ENDS: usize = 4096;

/// Puts a value to a line as it may stand there: cut, and without control characters.
fn push_told(text: &mut String, value: &str) -> Result<(), AllocError> {
    let most = text.len().saturating_add(MOST_TOLD);
    for letter in value.chars() {
        if text.len() >= most {
            return text.push_str("..");
        }
        match letter {
            '\t' => text.push_str("\\t")?,
            letter if letter < ' ' || letter == '\u{7f}' => text.push('?')?,
            letter => text.push(letter)?,
        }
    }
    Ok(())
}

/// A look of two texts.
fn look_of(alloc: Global, how: &str, more: &str) -> Result<Look, AllocError> {
    let how = Text::new(alloc, how)?;
    let more = Text::new(alloc, more)?;
    Ok(Look { how, more })
}

/// The columns that a header has.
fn columns_of(alloc: Global, header: &ByteRecord) -> Result<String, AllocError> {
    let mut text = String::from_str(alloc, "; it has ")?;
    let mut later = false;
    for field in header.iter() {
        if later {
            text.push_str(", ")?;
        }
        later = true;
        push_told(&mut text, str::from_utf8(field).unwrap_or(".."))?;
    }
    Ok(text)
}

/// How a header has a column that isn't there once.
fn header_look(alloc: Global, header: &ByteRecord, column: &str) -> Result<Look, AllocError> {
    if header.iter().any(|field| field == column.as_bytes()) {
        return look_of(alloc, "more than one", "");
    }
    let columns = columns_of(alloc, header)?;
    look_of(alloc, "no", columns.as_str())
}

/// The place of a column in a header.
fn place_of(header: &ByteRecord, column: &str) -> Option<usize> {
    header.iter().position(|field| field == column.as_bytes())
}

/// On which line a record begins, and what a field of it is.
fn field_look(
    alloc: Global,
    line: u64,
    record: &ByteRecord,
    place: usize,
) -> Result<Look, AllocError> {
    let mut more = format!(in alloc; " (line {line}")?;
    if let Ok(value) = str::from_utf8(record.get(place).unwrap_or(b"")) {
        more.push_str(": ")?;
        push_told(&mut more, value)?;
    }
    more.push(')')?;
    look_of(alloc, "", more.as_str())
}

/// How many lines end in the bytes before the first that is no end of a line, if there is one.
fn lines_ended(bytes: &[u8]) -> Option<usize> {
    let end = bytes
        .iter()
        .position(|byte| *byte != b'\r' && *byte != b'\n')?;
    Some(bytes[..end].iter().filter(|byte| **byte == b'\n').count())
}

/// The record of a number, where the first one, the header, has 0.
fn record_at(alloc: Global, reader: &mut Reader<File>, number: usize) -> Option<ByteRecord> {
    let mut record = ByteRecord::new(alloc);
    for _ in 0..number.saturating_add(1) {
        match reader.read_byte_record(&mut record) {
            Ok(true) => {}
            _ => return None,
        }
    }
    Some(record)
}

impl<'a, R: Files<File = File>> RealLooks<'a, R> {
    /// A reader of the records of a regular file, its header among them.
    fn reader_of(&self, name: &str) -> Option<Reader<File>> {
        let facts = self.rt.metadata(name).ok()?;
        if name == "-" || !facts.is_file() {
            return None;
        }
        let file = fs::open(self.rt, name).ok()?;
        Some(
            ReaderBuilder::new()
                .has_headers(false)
                .flexible(true)
                .from_reader(self.alloc, file),
        )
    }

    /// On which line of a file a record begins. Its position may be before ends of lines.
    fn line_of(&self, name: &str, record: &ByteRecord) -> Option<u64> {
        let position = record.position()?;
        let mut file = fs::open(self.rt, name).ok()?;
        file.seek(SeekFrom::Start(position.byte())).ok()?;
        let mut room = [0u8; MOST_ENDS];
        let read = file.read(&mut room).ok()?;
        let ended = lines_ended(room.get(..read)?)?;
        position.line().checked_add(ended as u64)
    }

    /// A look at a field of a row, or in row 0 at a column that isn't there once.
    fn field(&self, name: &str, row: usize, column: &str) -> Option<Look> {
        let mut reader = self.reader_of(name)?;
        let header = record_at(self.alloc, &mut reader, 0)?;
        let Some(before) = row.checked_sub(1) else {
            return header_look(self.alloc, &header, column).ok();
        };
        let place = place_of(&header, column)?;
        let record = record_at(self.alloc, &mut reader, before)?;
        match self.line_of(name, &record) {
            Some(line) => field_look(self.alloc, line, &record, place).ok(),
            None => look_of(self.alloc, "", "").ok(),
        }
    }

    /// Whether there is something of a name that can't be read.
    fn is_closed(&self, name: &str) -> bool {
        match self.rt.metadata(name) {
            Ok(facts) => facts.is_dir() || fs::open(self.rt, name).is_err(),
            Err(_) => false,
        }
    }

    /// Whether a file of a name has too many bytes.
    fn is_large(&self, name: &str) -> bool {
        match self.rt.metadata(name) {
            Ok(facts) => facts.len() > MOST_FILE_BYTES as u64,
            Err(_) => false,
        }
    }

    /// A look at the first of some files that can't be read, or has too many bytes.
    fn first_of(&self, names: &Names, large: bool) -> Option<Look> {
        for name in &names.files {
            let name = name.as_str();
            let found = if large {
                self.is_large(name)
            } else {
                self.is_closed(name)
            };
            if name != "-" && found {
                return look_of(self.alloc, name, "").ok();
            }
        }
        None
    }
}

impl<'a, R: Files<File = File>> Looks for RealLooks<'a, R> {
    fn look(&mut self, names: &Names, error: &CsvError) -> Option<Look> {
        match error {
            CsvError::Field { file, row, column } => {
                let name = names.files.get(file.saturating_sub(1))?;
                let field = names.columns.fields().get(column.saturating_sub(1))?;
                self.field(name.as_str(), *row, field.name.as_str())
            }
            CsvError::Input => self.first_of(names, false),
            CsvError::TooLarge => self.first_of(names, true),
            _ => None,
        }
    }
}
