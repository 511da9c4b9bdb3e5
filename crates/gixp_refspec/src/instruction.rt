//! The instruction of a refspec.
use bstr::BStr;

/// The instruction of a refspec, by its operation.
#[derive(Clone, Copy, Debug, PartialEq, Eq)]
pub enum Instruction<'a> {
    /// For `git fetch`.
    Fetch(Fetch<'a>),
}

/// The instruction of a refspec of `git fetch`.
#[derive(Clone, Copy, Debug, PartialEq, Eq)]
pub enum Fetch<'a> {
    /// Fetches what the source names, and updates no local ref.
    Only {
        /// An object id, a name or a pattern.
        src: BStr<'a>,
    },
    /// Fetches what the source names, and updates local refs.
    AndUpdate {
        /// An object id, a name or a pattern.
        src: BStr<'a>,
        /// The name of the local ref; a pattern if the source is one.
        dst: BStr<'a>,
        /// Whether the update may lose commits of the local ref: the refspec begins with `+`.
        allow_non_fast_forward: bool,
    },
    /// Excludes the refs that the source matches.
    Exclude {
        /// An exact name or a pattern.
        src: BStr<'a>,
    },
}
