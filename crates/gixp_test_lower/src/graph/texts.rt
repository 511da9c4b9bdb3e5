//! The texts of errors, and the numbers and names of marks.
use crate::shown::is_shown;
use bitflags::Flags as _;
use gixp_graph::{Flags, NegotiatorError, ObjectError, RefStoreError};
use std::io;
use std::test::Fail;

#[test]
fn errors(rt: HostRuntime) -> Result<(), Fail> {
    for (error, text) in [
        (ObjectError::Io(io::ErrorKind::Other), "Io"),
        (ObjectError::Corrupt, "Corrupt"),
        (ObjectError::Memory, "Memory"),
    ] {
        assert!(rt; is_shown(rt.alloc(), error, text)?);
    }
    for (error, text) in [
        (NegotiatorError::Lookup(ObjectError::Corrupt), "Lookup"),
        (NegotiatorError::Memory, "Memory"),
    ] {
        assert!(rt; is_shown(rt.alloc(), error, text)?);
    }
    Ok(())
}

#[test]
fn errors_of_refs(rt: HostRuntime) -> Result<(), Fail> {
    for (error, text) in [
        (RefStoreError::OpenPackedRefsBuffer, "OpenPackedRefsBuffer"),
        (RefStoreError::Iter, "Iter"),
        (RefStoreError::Peel, "Peel"),
        (RefStoreError::Io(io::ErrorKind::Other), "Io"),
        (RefStoreError::Memory, "Memory"),
    ] {
        assert!(rt; is_shown(rt.alloc(), error, text)?);
    }
    Ok(())
}

#[test]
fn marks(rt: HostRuntime) {
    for (name, number) in [
        ("COMPLETE", 1),
        ("COMMON", 2),
        ("COMMON_REF", 4),
        ("SEEN", 8),
        ("POPPED", 16),
    ] {
        assert!(rt; Flags::from_name(name) == Some(Flags(number)));
    }
    assert!(rt; Flags::all() == Flags(31));
    assert!(rt; Flags::COMMON.union(Flags::COMMON_REF) == Flags(6));
}
