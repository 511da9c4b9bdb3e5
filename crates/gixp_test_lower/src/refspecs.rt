//! Refspecs: values, copies, texts of errors, and failing allocations. `gixp_replay` has the test vectors.
use crate::shown::is_shown;
use bstr::{BStr, BString};
use gixp_hash::ObjectId;
use gixp_matching::match_group::validate::{self, Fix};
use gixp_matching::match_group::{Item, Mapping, MatchGroup, Outcome, SourceRef};
use gixp_refspec::instruction::{Fetch, Instruction};
use gixp_refspec::parse::{Error, Operation, parse};
use gixp_refspec::{PartialName, RefSpec, RefSpecRef};
use std::alloc::{AllocError, Global};
use std::process::Abort;
use std::test::Fail;

// Reads a refspec; `None` where it is invalid.
fn read(text: &[u8]) -> Option<RefSpecRef<'_>> {
    match parse(BStr::new(text), Operation::Fetch) {
        Ok(spec) => Some(spec),
        Err(_) => None,
    }
}

fn check_bytes(rt: &impl Abort, shown: &[u8], want: &[u8]) {
    assert!(rt; shown == want);
}

fn refusal(text: &[u8]) -> Option<Error> {
    match parse(BStr::new(text), Operation::Fetch) {
        Ok(_) => None,
        Err(e) => Some(e),
    }
}

// Whether a text is a refspec with this instruction.
fn is_parsed_as(text: &[u8], instruction: &Instruction<'_>) -> bool {
    match read(text) {
        Some(spec) => spec.instruction() == *instruction,
        None => false,
    }
}

#[test]
fn instructions(rt: HostRuntime) {
    let head = Instruction::Fetch(Fetch::Only {
        src: BStr::new(b"HEAD"),
    });
    assert!(rt; is_parsed_as(b"+", &head) && is_parsed_as(b":", &head));
    assert!(rt; read(b"+") != read(b":"));
    let update = Instruction::Fetch(Fetch::AndUpdate {
        src: BStr::new(b"a"),
        dst: BStr::new(b"refs/heads/b"),
        allow_non_fast_forward: true,
    });
    assert!(rt; is_parsed_as(b"+a:refs/heads/b", &update));
}

fn check_copy<T: Clone + PartialEq>(rt: &impl Abort, value: &T) -> Result<(), AllocError> {
    let copy = value.clone()?;
    assert!(rt; copy == *value);
    Ok(())
}

// A refspec with a sign, a source and a destination.
const SPEC: &[u8] = b"+a:refs/heads/b";

fn check_owned(rt: &impl Abort, alloc: Global, spec: &RefSpec) -> Result<(), AllocError> {
    let text = spec.to_bstring(alloc)?;
    check_bytes(rt, text.as_bytes(), SPEC);
    check_copy(rt, spec)
}

fn check_spec(rt: &impl Abort, alloc: Global, spec: RefSpecRef<'_>) -> Result<(), AllocError> {
    let owned = spec.to_owned(alloc)?;
    assert!(rt; owned.to_ref() == spec);
    check_owned(rt, alloc, &owned)
}

fn check_spec_text(rt: &impl Abort, alloc: Global, spec: RefSpecRef<'_>) -> Result<(), AllocError> {
    let text = spec.to_bstring(alloc)?;
    check_bytes(rt, text.as_bytes(), SPEC);
    Ok(())
}

fn check_name(rt: &impl Abort, name: &PartialName) -> Result<(), AllocError> {
    let copy = name.clone()?;
    check_bytes(rt, copy.as_bstr().as_bytes(), b"main");
    Ok(())
}

fn check_fix(rt: &impl Abort, alloc: Global) -> Result<(), AllocError> {
    let fix = Fix::MappingWithPartialDestinationRemoved {
        name: BString::from_slice(alloc, b"o/main")?,
        spec: BString::from_slice(alloc, b"a:o/*")?,
    };
    check_copy(rt, &fix)
}

fn check_mapping(rt: &impl Abort, alloc: Global) -> Result<(), AllocError> {
    let mapping = Mapping {
        item_index: Some(1),
        lhs: SourceRef::FullName(BString::from_slice(alloc, b"HEAD")?),
        rhs: None,
        spec_index: 2,
    };
    check_copy(rt, &mapping)
}

fn check_copies(rt: &impl Abort, alloc: Global) -> Result<(), AllocError> {
    if let Some(spec) = read(SPEC) {
        check_spec(rt, alloc, spec)?;
        check_spec_text(rt, alloc, spec)?;
    }
    if let Ok(name) = PartialName::new(BString::from_slice(alloc, b"main")?) {
        check_name(rt, &name)?;
    }
    check_fix(rt, alloc)?;
    check_mapping(rt, alloc)
}

// The mappings of one ref by these refspecs.
fn matched<'s>(alloc: Global, specs: &'s [RefSpecRef<'s>]) -> Result<Outcome<'s>, AllocError> {
    let id = ObjectId::null();
    let item = Item {
        full_ref_name: BStr::new(b"refs/heads/a"),
        target: &id,
        object: None,
    };
    MatchGroup::from_fetch_specs(specs).match_lhs(alloc, &[item])
}

// The number of mappings and of fixes; `None` where one local name has two sources.
fn validated(alloc: Global, outcome: Outcome<'_>) -> Result<Option<(usize, usize)>, AllocError> {
    match outcome.validated(alloc)? {
        Ok((outcome, fixes)) => Ok(Some((outcome.mappings.len(), fixes.len()))),
        Err(_) => Ok(None),
    }
}

// A pattern maps a ref to a local name that is not a full name: validation removes the mapping and reports a fix.
fn check_matching(rt: &impl Abort, alloc: Global) -> Result<(), AllocError> {
    let Some(spec) = read(b"refs/heads/*:o/*") else {
        return Ok(());
    };
    let specs = [spec];
    let outcome = matched(alloc, &specs)?;
    assert!(rt; validated(alloc, outcome)? == Some((0, 1)));
    Ok(())
}

fn check_prefixes(rt: &impl Abort, alloc: Global) -> Result<(), AllocError> {
    let mut prefixes = Vec::new(alloc);
    if let Some(spec) = read(b"main") {
        spec.expand_prefixes(alloc, &mut prefixes)?;
    }
    assert!(rt; prefixes.len() == 6);
    Ok(())
}

#[test]
fn copies_mappings_and_prefixes(rt: HostRuntime) -> Result<(), Fail> {
    check_copies(&rt, rt.alloc())?;
    check_matching(&rt, rt.alloc())?;
    check_prefixes(&rt, rt.alloc())?;
    Ok(())
}

// If an allocation fails, each call returns its result or that failure.
#[test]
fn answers_or_allocation_failures(rt: HostRuntime) {
    let _ = check_copies(&rt, rt.alloc());
    let _ = check_matching(&rt, rt.alloc());
    let _ = check_prefixes(&rt, rt.alloc());
}

#[test]
fn errors_show_their_names(rt: HostRuntime) -> Result<(), Fail> {
    let fault = refusal(b"^refs/heads/x:y").ok_or("refusal")?;
    assert!(rt; is_shown(rt.alloc(), fault, "NegativeWithDestination")?);
    let issues = Vec::new(rt.alloc());
    assert!(rt; is_shown(rt.alloc(), validate::Error { issues }, "Error")?);
    Ok(())
}
