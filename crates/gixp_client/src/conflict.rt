//! Two refs that map to one local name.
ghost use Rattle.std.specs.Prelude.{◌≡◌, not, map};
ghost use Rattle.std.specs.Option.{option_map, option_copied};
ghost use Rattle.std.specs.List.{find};
ghost use Rattle.gixp_matching.specs.Mappings.{source_eq};
ghost use Rattle.gixp_matching.specs.MatchGroup.{source_of};
ghost use Rattle.gixp_matching.specs.Validate.{conflicts_in};
ghost use Rattle.bstr.specs.Owned.{bstring_bytes};
ghost use Rattle.gixp_client.specs.Clashes.{clash_value, clash_in, clash_of, conflict_in};

use crate::error::Error;
use crate::printable::Words;
use bstr::BString;
use gixp_matching::match_group::SourceRef;
use gixp_matching::match_group::validate::{self, Issue};
use std::fmt;
use std::fmt::Display;

/// Two sources that map to one local name. `git fetch` reports it as `Cannot fetch both refs/heads/a and refs/tags/a to refs/b`.
#[derive(Clone, Copy, Debug)]
pub struct Conflict<'a> {
    /// The local name.
    pub destination: &'a BString,
    /// The first source in the order of the map.
    pub one: &'a SourceRef,
    /// The first source after it that differs from it.
    pub other: &'a SourceRef,
}

fn differ(one: &SourceRef, other: &SourceRef) -> bool
    ensures { result ≡ not (source_eq (source_of one.now) (source_of other.now)) }
{
    match (one, other) {
        (SourceRef::FullName(one), SourceRef::FullName(other)) => {
            one.as_bytes() != other.as_bytes()
        }
        (SourceRef::ObjectId(one), SourceRef::ObjectId(other)) => one.bytes != other.bytes,
        _ => true,
    }
}

// The first source that differs from `one`.
fn other_source<'a>(one: &SourceRef, sources: &'a [SourceRef]) -> Option<&'a SourceRef>
    ensures { option_map source_of (option_copied result)
        ≡ find (λ s. not (source_eq (source_of one.now) s)) (map source_of sources.now) }
{
    let mut rest = sources;
    while let Some((source, tail)) = rest.split_first() {
        if differ(one, source) {
            return Some(source);
        }
        rest = tail;
    }
    None
}

fn clash_in<'a>(destination: &'a BString, sources: &'a [SourceRef]) -> Option<Conflict<'a>>
    ensures { option_map clash_value result ≡ clash_in (bstring_bytes destination.now) (map source_of sources.now) }
{
    let (one, rest) = sources.split_first()?;
    let other = other_source(one, rest)?;
    Some(Conflict {
        destination,
        one,
        other,
    })
}

fn first_clash(e: &validate::Error) -> Option<Conflict<'_>>
    ensures { option_map clash_value result ≡ clash_of (conflicts_in e.now.issues) }
{
    let Issue::Conflict {
        destination_full_ref_name,
        sources,
        ..
    } = e.issues.first()?;
    clash_in(destination_full_ref_name, sources)
}

impl Error {
    /// If two refs map to one local name: the name and both sources. If there are several such names, the first in byte order.
    pub fn conflict(&self) -> Option<Conflict<'_>>
        ensures { option_map clash_value result ≡ conflict_in self.now }
    {
        match self {
            Error::Conflicts(e) => first_clash(e),
            _ => None,
        }
    }
}

// Displays a source in an error message.
#[derive(Drop)]
struct Shown<'a> {
    source: &'a SourceRef,
}

impl Display for Shown<'_> {
    fn fmt<W: fmt::Write>(&self, f: &mut fmt::Formatter<W>) -> fmt::Result {
        match self.source {
            SourceRef::FullName(name) => Words {
                words: name.as_bytes(),
            }
            .fmt(f),
            SourceRef::ObjectId(id) => id.fmt(f),
        }
    }
}

/// Displays git's message. Control characters of names become question marks, as in server messages.
impl Display for Conflict<'_> {
    fn fmt<W: fmt::Write>(&self, f: &mut fmt::Formatter<W>) -> fmt::Result {
        let one = Shown { source: self.one };
        let other = Shown { source: self.other };
        let destination = Words {
            words: self.destination.as_bytes(),
        };
        write!(f, "Cannot fetch both {one} and {other} to {destination}")
    }
}
