//! The header of a file.

ghost use Rattle.std.specs.Prelude.{◌≡◌};
ghost use Rattle.csv.specs.Records.{fields_of};
ghost use Rattle.pipe_csv.specs.CsvRows.{is_header};

use csv::ByteRecord;
use pipe_columns::Field;

/// Whether a record is the names of a schema, in order.
pub fn is_header(fields: &[Field], entry: &ByteRecord) -> bool
    ensures { result ≡ is_header fields.now (fields_of entry.now) }
{
    if entry.len() != fields.len() {
        return false;
    }
    for (i, field) in fields.iter().enumerate() {
        if field.name.as_bytes() != entry.get(i).unwrap() {
            return false;
        }
    }
    true
}
