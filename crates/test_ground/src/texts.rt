//! Texts and values that are one: each public call once.

use pipe_columns::{AnyValue, Text};
use std::alloc::{AllocError, Global};
use std::test::Fail;

/// Whether bytes are this text.
fn are_text(bytes: Vec<u8>, due: &str) -> bool {
    match Text::from_bytes(bytes) {
        Some(text) => text.as_str() == due,
        None => false,
    }
}

#[test]
fn of_bytes(rt: HostRuntime) -> Result<(), Fail> {
    let bytes = Vec::from_slice(rt.alloc(), b"ab")?;
    assert!(rt; are_text(bytes, "ab"));
    Ok(())
}

#[test]
fn of_bytes_in_no_utf8(rt: HostRuntime) -> Result<(), Fail> {
    let bytes = Vec::from_slice(rt.alloc(), b"\xff")?;
    assert!(rt; Text::from_bytes(bytes).is_none());
    Ok(())
}

#[test]
fn in_order(rt: HostRuntime) -> Result<(), Fail> {
    let text = Text::new(rt.alloc(), "ab")?;
    let later = Text::new(rt.alloc(), "b")?;
    assert!(rt; text < later);
    Ok(())
}

/// Whether the copy of a value is equal to it, which is itself the copy of a text.
fn are_copied(alloc: Global, text: &Text) -> Result<bool, AllocError> {
    let value = AnyValue::Text(text.try_clone(alloc)?);
    Ok(value.try_clone(alloc)? == value)
}

#[test]
fn copies_are_equal(rt: HostRuntime) -> Result<(), Fail> {
    let text = Text::new(rt.alloc(), "ab")?;
    assert!(rt; are_copied(rt.alloc(), &text)?);
    Ok(())
}

#[test]
fn bytes_and_back(rt: HostRuntime) -> Result<(), Fail> {
    let text = Text::new(rt.alloc(), "t")?;
    let _utf8 = text.as_bytes();
    let again = Text::from_utf8(text.into_bytes());
    assert!(rt; again.as_str() == "t");
    Ok(())
}
