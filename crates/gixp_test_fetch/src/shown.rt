//! Values as text.
use std::alloc::{AllocError, Global};
use std::fmt::{Debug, Display};

/// The debug text of a value.
pub(crate) fn shown<T: Debug + Drop>(alloc: Global, value: T) -> Result<String, AllocError> {
    format!(in alloc; "{value:?}")
}

/// The texts of these errors, a line each.
pub(crate) fn texts<E: Display>(alloc: Global, errors: &[E]) -> Result<String, AllocError> {
    let mut lines = String::new(alloc);
    for error in errors {
        lines.push_str(error.to_string(alloc)?.as_str())?;
        lines.push('\n')?;
    }
    Ok(lines)
}
