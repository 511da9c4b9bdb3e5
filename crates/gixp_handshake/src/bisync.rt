//! Whether the calls of this library block.

/// The calls block until they are done.
pub const SYNC: bool = true;

/// The calls can't be awaited.
pub const ASYNC: bool = false;
