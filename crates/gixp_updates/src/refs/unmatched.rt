//! The refspecs that matched nothing.
ghost use Rattle.std.specs.Prelude.{◌≡◌, ◌++◌, IfOk, OnOk};
ghost use Rattle.std.specs.Option.{option_to_list};
ghost use Rattle.std.specs.List.{list_any};
ghost use Rattle.gixp_refspec.specs.RefSpec.{value_of};
ghost use Rattle.gixp_refspec.specs.Spec.{Spec, is_id};
ghost use Rattle.gixp_updates.specs.RefNames.{HasNames, KnowsNames};
ghost use Rattle.gixp_updates.specs.Unmatched.{is_match_with, is_match, is_unmatched, note_on, unmatched_of};

use crate::refs::named::{has_candidate, has_object, names_of};
use gixp_refmap::RefMap;
use gixp_refs::handshake::Ref;
use gixp_refspec::RefSpec;
use gixp_refspec::needle::Needle;
use gixp_refspec::spec::{RefSpecRef, id_in, is_negative, stars};
use std::alloc::{AllocError, Global};
use std::collections::BTreeSet;

/// A refspec that matched nothing.
#[derive(Clone, Copy, Debug, PartialEq, Eq)]
pub struct UnmatchedSpec {
    /// Its index in the list of refspecs that the user passed, from 0.
    pub index: usize,
    /// Whether it is a pattern. `git fetch` fails if a refspec without a pattern matched nothing.
    pub is_pattern: bool,
}

// From so many refspecs on, names are looked up in a set. For fewer, comparing with each ref costs less than making the set.
const MANY: usize = 64;

// The refs of a server. With many refspecs to compare, the names of those that have an object are in a set.
#[derive(Drop)]
struct Looked<'r> {
    refs: &'r [Ref],
    names: Option<BTreeSet<&'r [u8]>>,
    ghost named: { KnowsNames refs.now names },
}

// The refs, prepared for so many refspecs.
fn looked_at(alloc: Global, refs: &[Ref], count: usize) -> Result<Looked<'_>, AllocError>
    ensures { IfOk result (λ looked. looked.refs.now ≡ refs.now) }
{
    let names = if count < MANY {
        None
    } else {
        Some(names_of(alloc, refs)?)
    };
    Ok(Looked { refs, names })
}

// Whether the needle matches the name of a ref that has an object.
fn is_match(needle: &Needle<'_>, found: &Ref) -> bool
    ensures { result ≡ is_match_with needle.now found.now }
{
    has_object(found) && needle.middle(found.name().as_bytes()).is_some()
}

// Whether the needle matches one of the refs.
fn has_match(needle: &Needle<'_>, refs: &[Ref]) -> bool
    ensures { result ≡ list_any (is_match_with needle.now) refs.now }
{
    refs.iter().any(|found| is_match(needle, found))
}

// Whether the needle matches one of the refs, by the set of names. A pattern is compared with each ref.
fn has_name(
    alloc: Global,
    needle: &Needle<'_>,
    names: &BTreeSet<&[u8]>,
    refs: &[Ref],
) -> Result<bool, AllocError>
    requires { HasNames refs.now names.now }
    ensures { IfOk result (λ found. found ≡ list_any (is_match_with needle.now) refs.now) }
{
    match needle {
        Needle::Exact(name) => Ok(names.contains(*name)),
        Needle::Short(name) => has_candidate(alloc, names, name),
        Needle::Id => Ok(false),
        Needle::Pattern { .. } => Ok(has_match(needle, refs)),
    }
}

fn is_id(source: &[u8]) -> bool
    ensures { result ≡ is_id source.now }
{
    id_in(source).is_some()
}

// Whether a source matches the name of one of the refs that have an object.
fn is_matched(alloc: Global, source: &[u8], looked: &Looked<'_>) -> Result<bool, AllocError>
    ensures { IfOk result (λ found. (s : Spec) → s.source ≡ source.now → found ≡ list_any (is_match s) looked.now.refs.now) }
{
    let needle = Needle::new(source);
    match &looked.names {
        Some(names) => has_name(alloc, &needle, names, looked.refs),
        None => Ok(has_match(&needle, looked.refs)),
    }
}

// Whether a positive refspec of names matches none of the refs.
fn is_unmatched(
    alloc: Global,
    spec: RefSpecRef<'_>,
    looked: &Looked<'_>,
) -> Result<bool, AllocError>
    ensures { IfOk result (λ is_so. is_so ≡ is_unmatched looked.now.refs.now (value_of spec.entry)) }
{
    if is_negative(spec.sign) || is_id(spec.source) {
        return Ok(false);
    }
    let is_matched = is_matched(alloc, spec.source, looked)?;
    Ok(!is_matched)
}

// The entry for a refspec, if it matched nothing.
fn note_on(
    alloc: Global,
    looked: &Looked<'_>,
    index: usize,
    spec: &RefSpec,
) -> Result<Option<UnmatchedSpec>, AllocError>
    ensures { IfOk result (λ note. option_to_list note ≡ note_on looked.now.refs.now (index, spec.now)) }
{
    let spec = spec.to_ref();
    if !is_unmatched(alloc, spec, looked)? {
        return Ok(None);
    }
    let is_pattern = stars(spec.source) > 0;
    Ok(Some(UnmatchedSpec { index, is_pattern }))
}

// Appends the entry for a refspec, if it matched nothing.
fn push_note(
    alloc: Global,
    notes: &mut Vec<UnmatchedSpec>,
    looked: &Looked<'_>,
    index: usize,
    spec: &RefSpec,
) -> Result<(), AllocError>
    ensures { OnOk result (notes.new.items ≡ notes.old.items ++ note_on looked.now.refs.now (index, spec.now)) }
{
    if let Some(note) = note_on(alloc, looked, index, spec)? {
        notes.push(note)?;
    }
    Ok(())
}

/// The refspecs of the user that no ref of the server matches, except negative ones and object ids. An unborn ref
/// doesn't count as a match. If one of them isn't a pattern, `git fetch` fails (`couldn't find remote ref`).
///
/// # Errors
///
/// Only an allocation failure.
pub fn unmatched(alloc: Global, map: &RefMap) -> Result<Vec<UnmatchedSpec>, AllocError>
    ensures { IfOk result (λ found. found.items ≡ unmatched_of map.now.remote_refs.items map.now.refspecs.items) }
{
    let mut notes = Vec::new(alloc);
    let looked = looked_at(alloc, &map.remote_refs, map.refspecs.len())?;
    'specs: for (index, spec) in map.refspecs.iter().enumerate() {
        push_note(alloc, &mut notes, &looked, index, spec)?;
    }
    Ok(notes)
}
