//! Calls that want memory.

use crate::asked::{is_right, saved};
use pipe_csv::CsvError;
use std::test::Fail;

#[test]
fn state_of_two_files(rt: HostRuntime) -> Result<(), Fail> {
    match saved(&rt, rt.alloc(), None)? {
        Ok(text) => {
            if is_right(&text) {
                Ok(())
            } else {
                Err("another text".into())
            }
        }
        Err(CsvError::Memory) => Err("save_files wants memory".into()),
        Err(_) => Err("another error".into()),
    }
}
