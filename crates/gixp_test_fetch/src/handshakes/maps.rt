//! Lists of refs over devices that fail, and ref maps with allocations that fail.
use crate::shown::shown;
use crate::transports::{connection, memory, opening, text};
use bstr::{BStr, BString};
use gixp_doubles::{Device, Paper, ProgressLog};
use gixp_handshake::Handshake;
use gixp_handshake::handshake::{obtain, obtain_mappings};
use gixp_packetline::Protocol;
use gixp_refmap::RefMap;
use gixp_refmap::fetch::Tags;
use gixp_refmap::ls_refs::RefPrefixes;
use gixp_refmap::refmap::init::{Context, Error};
use gixp_refspec::RefSpec;
use gixp_refspec::parse::{Operation, parse};
use gixp_requests::agent_feature;
use gixp_requests::command::CommandTable;
use gixp_transport::Transport;
use std::alloc::{AllocError, Global};
use std::io::ErrorKind;
use std::test::Fail;

const REFS: &[u8] = b"003d0123456789012345678901234567890123456789 refs/heads/main\n\
    003cbbbbbbbbbbbbbbbbbbbbbbbbbbbbbbbbbbbbbbbb refs/tags/main\n0000";

fn spec(alloc: Global, line: &[u8]) -> Result<RefSpec, Fail> {
    let spec = parse(BStr::new(line), Operation::Fetch)?;
    Ok(spec.to_owned(alloc)?)
}

// This refspec, and the one of all tags.
fn context(alloc: Global, line: &[u8]) -> Result<Context, Fail> {
    let mut fetch_refspecs = Vec::new(alloc);
    fetch_refspecs.push(spec(alloc, line)?)?;
    let mut extra_refspecs = Vec::new(alloc);
    if let Some(tags) = Tags::All.to_refspec() {
        extra_refspecs.push(tags.to_owned(alloc)?)?;
    }
    Ok(Context {
        fetch_refspecs,
        extra_refspecs,
    })
}

fn listed<T: Transport>(
    alloc: Global,
    transport: &mut T,
    context: Context,
) -> Result<RefMap, Error> {
    let agent = agent_feature(alloc, "x")?;
    let mut shaken = Handshake::empty(alloc);
    let mut progress = ProgressLog::new(alloc);
    obtain(
        alloc,
        &mut shaken,
        &CommandTable::git(),
        agent,
        context,
        &mut progress,
        transport,
    )
}

// The ref map of a server of version 2, without a list of its refs.
fn listed_mappings<T: Transport>(
    alloc: Global,
    transport: &mut T,
    context: Context,
) -> Result<RefMap, Error> {
    let agent = agent_feature(alloc, "x")?;
    let mut shaken = Handshake::empty(alloc);
    let mut progress = ProgressLog::new(alloc);
    obtain_mappings(
        alloc,
        &mut shaken,
        &CommandTable::git(),
        agent,
        context,
        &mut progress,
        transport,
    )
}

// The result of a listing whose write with this number fails.
fn listed_over_broken(alloc: Global, fails: u64) -> Result<String, Fail> {
    let device = Device::new(REFS, usize::MAX);
    let paper = Paper::failing(alloc, 16, fails, ErrorKind::BrokenPipe);
    let context = context(alloc, b"HEAD")?;
    let opening = opening(alloc)?;
    let mut transport = connection(alloc, device, paper, Protocol::V2, Some(opening))?;
    Ok(shown(alloc, listed(alloc, &mut transport, context))?)
}

#[test]
fn reports_each_write_of_a_request_that_fails(rt: HostRuntime) -> Result<(), Fail> {
    for fails in 0..6u64 {
        let sent = listed_over_broken(rt.alloc(), fails)?;
        assert_eq!(rt;
            sent.as_str(),
            "Err(ListRefs(Transport(Io(BrokenPipe))))",
            "{fails}"
        );
    }
    Ok(())
}

fn listed_over_memory(alloc: Global, context: Context) -> Result<RefMap, Error> {
    listed(alloc, &mut memory(alloc, &[REFS])?, context)
}

// How many mappings and refs a copy has, and whether a required mapping is missing.
fn counts(map: &RefMap) -> Result<(usize, usize, bool), AllocError> {
    let copy = map.clone()?;
    let is_missing = copy.is_missing_required_mapping();
    Ok((copy.mappings.len(), copy.remote_refs.len(), is_missing))
}

#[test]
fn lists_and_maps(rt: HostRuntime) -> Result<(), Fail> {
    let context = context(rt.alloc(), b"refs/heads/*:refs/remotes/o/*")?;
    let map = listed_over_memory(rt.alloc(), context)?;
    assert_eq!(rt; counts(&map)?, (2, 2, false));
    Ok(())
}

// Whether the ref map without a list of its refs is otherwise the whole one.
fn maps_alike(alloc: Global, line: &[u8]) -> Result<bool, Fail> {
    let map = listed_mappings(alloc, &mut memory(alloc, &[REFS])?, context(alloc, line)?)?;
    let mut whole = listed_over_memory(alloc, context(alloc, line)?)?;
    whole.remote_refs.clear();
    Ok(shown(alloc, map)? == shown(alloc, whole)?)
}

#[test]
fn lists_and_maps_without_refs(rt: HostRuntime) -> Result<(), Fail> {
    assert!(rt; maps_alike(rt.alloc(), b"refs/heads/*:refs/remotes/o/*")?);
    Ok(())
}

fn count_issues(listed: Result<RefMap, Error>) -> Result<usize, Fail> {
    match listed {
        Err(Error::MappingValidation(e)) => Ok(e.issues.len()),
        Err(e) => Err(e.into()),
        Ok(_) => Err("a map".into()),
    }
}

#[test]
fn reports_a_conflict(rt: HostRuntime) -> Result<(), Fail> {
    let context = context(rt.alloc(), b"main:refs/x")?;
    let issues = count_issues(listed_over_memory(rt.alloc(), context))?;
    assert_eq!(rt; issues, 1);
    Ok(())
}

// Three prefixes, one of them twice.
fn names(alloc: Global) -> Result<Vec<BString>, AllocError> {
    let mut names = Vec::new(alloc);
    for name in [b"HEAD".as_slice(), b"main", b"HEAD", b"refs/tags"] {
        names.push(text(alloc, name)?)?;
    }
    Ok(names)
}

// The prefixes after an extension, and whether an allocation failed.
fn extended(alloc: Global) -> Result<(String, Result<(), AllocError>), AllocError> {
    let names = names(alloc)?;
    let mut prefixes = RefPrefixes::new(alloc);
    let added = prefixes.extend(names);
    Ok((shown(alloc, prefixes)?, added))
}

const FRONTS: [&str; 4] = [
    "[]",
    "[\"HEAD\"]",
    "[\"HEAD\", \"main\"]",
    "[\"HEAD\", \"main\", \"refs/tags\"]",
];

fn is_front(sent: &str) -> bool {
    FRONTS.iter().any(|front| *front == sent)
}

#[test]
fn keeps_the_prefixes_in_front(rt: HostRuntime) -> Result<(), Fail> {
    let (sent, added) = extended(rt.alloc())?;
    assert!(rt; is_front(sent.as_str()));
    added?;
    assert_eq!(rt; sent.as_str(), FRONTS[3]);
    Ok(())
}

// So many names that aren't among the others.
fn new_names(alloc: Global, count: u8, first: u8) -> Result<Vec<BString>, AllocError> {
    let mut names = Vec::new(alloc);
    for at in 0..count {
        names.push(text(alloc, &[first.saturating_add(at)])?)?;
    }
    Ok(names)
}

// So many prefixes leave room for two more without another allocation.
const FULL: u8 = 7;

// How many of three new prefixes an extension adds that has room for two, and whether an allocation failed.
fn kept_of_three(alloc: Global) -> Result<(usize, Result<(), AllocError>), AllocError> {
    let mut prefixes = RefPrefixes::new(alloc);
    prefixes.extend(new_names(alloc, FULL, b'a')?)?;
    let more = new_names(alloc, 3, b'A')?;
    let added = prefixes.extend(more);
    let lines = prefixes.into_args(alloc)?;
    Ok((lines.len().saturating_sub(usize::from(FULL)), added))
}

#[test]
fn keeps_two_where_the_third_finds_no_room(rt: HostRuntime) -> Result<(), Fail> {
    let (kept, added) = kept_of_three(rt.alloc())?;
    let wanted = if added.is_ok() { 3 } else { 2 };
    assert_eq!(rt; kept, wanted);
    added?;
    Ok(())
}

fn count_arguments(alloc: Global) -> Result<usize, AllocError> {
    let names = names(alloc)?;
    let mut prefixes = RefPrefixes::new(alloc);
    prefixes.extend(names)?;
    Ok(prefixes.into_args(alloc)?.len())
}

#[test]
fn makes_an_argument_of_each_prefix(rt: HostRuntime) -> Result<(), Fail> {
    assert_eq!(rt; count_arguments(rt.alloc())?, 3);
    Ok(())
}
