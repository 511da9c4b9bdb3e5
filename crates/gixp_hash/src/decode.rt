//! Why a text is not an object id.
use thiserror::Error as DeriveError;

/// Why a text is not an object id. Reading it changes nothing.
#[derive(Clone, Copy, Debug, PartialEq, Eq, Drop, DeriveError)]
pub enum Error {
    /// The text has this many bytes instead of 40.
    #[error("InvalidLength")]
    InvalidLength(usize),
    /// The text has 40 bytes, but one of them is not a hexadecimal digit.
    #[error("InvalidDigit")]
    InvalidDigit,
}
