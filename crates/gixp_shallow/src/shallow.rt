//! How a fetch changes the shallow boundary.
ghost use Rattle.std.specs.Prelude.{◌≡◌, IfOk, map};
ghost use Rattle.gixp_refspec.specs.PartialName.{name_bytes};
ghost use Rattle.gixp_shallow.specs.Shallow.{shallow_value};

use gixp_refspec::PartialName;
use std::alloc::AllocError;
use std::num::NonZeroU32;

/// How a fetch changes the shallow boundary (gitprotocol-pack, "Packfile Negotiation").
#[derive(Debug, Drop, PartialEq, Eq)]
pub enum Shallow {
    /// It doesn't change.
    NoChange,
    /// This many commits from each ref of the server (`git fetch --depth`).
    DepthAtRemote(NonZeroU32),
    /// This many commits more than there are now (`git fetch --deepen`).
    Deepen(u32),
    /// Commits since this time, in seconds since 1970-01-01 00:00:00 UTC (`git fetch --shallow-since`).
    Since {
        cutoff: i64,
    },
    /// No commit that is reachable from one of these refs (`git fetch --shallow-exclude`), and no commit before the time,
    /// if there is one, in seconds as in `Since`.
    Exclude {
        remote_refs: Vec<PartialName>,
        since_cutoff: Option<i64>,
    },
}

impl Default for Shallow {
    ghost use Rattle.gixp_shallow.specs.declared.shallow.Shallow.TheVariants.{NoChange};

    ghost is_default = { λ shallow. shallow ≡ NoChange };

    fn default() -> Shallow {
        Shallow::NoChange
    }
}

impl Clone for Shallow {
    ghost is_clone = { λ s t. shallow_value t ≡ shallow_value s };

    fn clone(&self) -> Result<Shallow, AllocError> {
        match self {
            Shallow::NoChange => Ok(Shallow::NoChange),
            Shallow::DepthAtRemote(depth) => Ok(Shallow::DepthAtRemote(*depth)),
            Shallow::Deepen(depth) => Ok(Shallow::Deepen(*depth)),
            Shallow::Since { cutoff } => Ok(Shallow::Since { cutoff: *cutoff }),
            Shallow::Exclude {
                remote_refs,
                since_cutoff,
            } => Ok(Shallow::Exclude {
                remote_refs: clone_names(remote_refs)?,
                since_cutoff: *since_cutoff,
            }),
        }
    }
}

fn clone_names(names: &Vec<PartialName>) -> Result<Vec<PartialName>, AllocError>
    ensures { IfOk result (λ copy. map name_bytes copy.items ≡ map name_bytes names.now.items) }
{
    let copy = names.clone()?;
    Ok(copy)
}

impl Shallow {
    ghost use Rattle.gixp_shallow.specs.Shallow.{at_remote, is_no_change, is_deepen_zero};

    /// The whole history: git's infinite depth of 2,147,483,647 (git-fetch, `--unshallow`).
    pub fn undo() -> Shallow
        ensures { shallow_value result ≡ at_remote 2147483647 }
    {
        Shallow::DepthAtRemote(NonZeroU32::MIN.saturating_add(2147483646))
    }

    /// Whether the boundary doesn't change.
    pub fn is_no_change(&self) -> bool
        ensures { result ≡ is_no_change self.now }
    {
        matches!(self, Shallow::NoChange)
    }

    /// Whether no commit is to be added.
    pub fn is_deepen_zero(&self) -> bool
        ensures { result ≡ is_deepen_zero self.now }
    {
        match self {
            Shallow::Deepen(depth) => *depth == 0,
            _ => false,
        }
    }
}
