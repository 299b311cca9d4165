//! Where columns stand in the rows of a file, found by their names.

ghost use Rattle.std.specs.Prelude.{◌≡◌, ◌<◌, ◌-◌, ◌^◌, IfErr, IfOk, IfSome, Ok, drop, length};
ghost use Rattle.csv.specs.Records.{fields_of};
ghost use Rattle.pipe_csv.specs.CsvError.{StopsBy};
ghost use Rattle.pipe_source.specs.Layout.{first_place};
ghost use Rattle.pipe_source.specs.NamedRows.{place_of, places_of};

use csv::ByteRecord;
use pipe_columns::Field;
use pipe_csv::CsvError;
use std::alloc::Global;

/// How many fields a row has, and in which of them each column stands.
#[derive(Drop)]
pub(crate) struct Layout {
    pub(crate) count: usize,
    pub(crate) places: Vec<usize>,
}

/// The place of the first field from one on that is a name.
fn first_place(name: &[u8], names: &ByteRecord, from: usize) -> Option<usize>
    ensures place { result ≡ first_place name.now from (drop from (fields_of names.now)) }
    ensures within { IfSome result (λ place. place < 2 ^ 64 - 1) }
{
    for i in from..names.len() {
        if name == names.get(i).unwrap() {
            return Some(i);
        }
    }
    None
}

/// The place of the one field of a header that is a name.
fn find_place(name: &[u8], names: &ByteRecord) -> Option<usize>
    ensures { result ≡ place_of name.now 0 (fields_of names.now) }
{
    let Some(place) = first_place(name, names, 0) else {
        return None;
    };
    match first_place(name, names, place + 1) {
        Some(_) => None,
        None => Some(place),
    }
}

/// Where columns stand in rows under a header, which names each of them once.
pub(crate) fn find_layout(
    alloc: Global,
    columns: &[Field],
    names: &ByteRecord,
    file: usize,
) -> Result<Layout, CsvError>
    ensures count { IfOk result (λ l. l.count ≡ length (fields_of names.now)) }
    ensures places { IfOk result
        (λ l. places_of file 1 columns.now (fields_of names.now) ≡ Ok l.places.items) }
    ensures stop { IfErr result
        (λ e. StopsBy e (places_of file 1 columns.now (fields_of names.now))) }
{
    let mut places = Vec::with_capacity(alloc, columns.len())?;
    for (i, column) in columns.iter().enumerate() {
        let Some(place) = find_place(column.name.as_bytes(), names) else {
            return Err(CsvError::Field {
                file,
                row: 0,
                column: i + 1,
            });
        };
        if places.push(place).is_err() {
            return Err(CsvError::Memory);
        }
    }
    Ok(Layout {
        count: names.len(),
        places,
    })
}
