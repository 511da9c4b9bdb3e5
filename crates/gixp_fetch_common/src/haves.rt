//! Which commits a fetch offers as haves.
use gixp_negotiators::Algorithm;

/// Which commits a fetch offers as haves, and in which order.
#[derive(Clone, Copy, Debug, PartialEq, Eq)]
pub enum Haves {
    /// As one of git's negotiators chooses them.
    By(Algorithm),
    /// All commits of the text, in its order.
    InOrder,
}
