//! Numbers of fields, where they stand.

use pipe_scan::field_number;

/// Fields, and the numbers that they write.
const NUMBERS: [(&[u8], Option<i64>); 16] = [
    (b"", None),
    (b"-", None),
    (b"0", Some(0)),
    (b"-0", Some(0)),
    (b"007", Some(7)),
    (b"-12345678", Some(-12345678)),
    (b"123456789", Some(123456789)),
    (b"999999999999999999", Some(999999999999999999)),
    (b"-999999999999999999", Some(-999999999999999999)),
    (b"1000000000000000000", None),
    (b"+1", None),
    (b"--1", None),
    (b"1 ", None),
    (b"1/", None),
    (b"1:", None),
    (b"1234567a", None),
];

/// Whether each field is read as its number, and one behind others.
pub(crate) fn are_read() -> bool {
    for (field, number) in &NUMBERS {
        if field_number(field, 0, field.len()) != *number {
            return false;
        }
    }
    field_number(b"1234567,-89,", 8, 11) == Some(-89)
}
