//! The texts that values display.
use std::alloc::{AllocError, Global};
use std::fmt::Display;

/// Whether `Display` writes this text for a value.
pub(crate) fn is_shown<T: Display + Drop>(
    alloc: Global,
    value: T,
    text: &str,
) -> Result<bool, AllocError> {
    Ok(value.to_string(alloc)?.as_str() == text)
}

/// Whether `Display` writes this text for these values, one on each line.
pub(crate) fn are_shown<T: Display>(
    alloc: Global,
    values: &[T],
    text: &str,
) -> Result<bool, AllocError> {
    let mut lines = String::new(alloc);
    for value in values {
        lines.push_str(value.to_string(alloc)?.as_str())?;
        lines.push('\n')?;
    }
    Ok(lines.as_str() == text)
}
