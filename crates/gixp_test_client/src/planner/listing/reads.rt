//! What no clause over a reader can say: the kind of a failed read, and how far a reader is read.
use crate::planner::listing::{paper, unless_memory};
use gixp_doubles::Device;
use gixp_planner::listing::{ListError, list_refs};
use gixp_refs::handshake::refs::parse;
use std::io::ErrorKind;
use std::test::Fail;

#[test]
fn keeps_the_kind_of_a_failed_read(rt: HostRuntime) -> Result<(), Fail> {
    let a = rt.alloc();
    let bytes = b"003d0123456789012345678901234567890123456789 refs/heads/main\n0000";
    for fails in 0..13u64 {
        let mut from = Device::failing(bytes, 5, fails, ErrorKind::ConnectionReset);
        let answer = unless_memory(list_refs(a, &mut from, &mut paper(a)))?;
        assert!(rt;
            matches!(
                answer,
                Err(ListError::Parse(parse::Error::Io(ErrorKind::ConnectionReset)))
            ),
            "at read {fails}"
        );
    }
    Ok(())
}

#[test]
fn reads_no_more_than_a_buffer(rt: HostRuntime) -> Result<(), Fail> {
    let a = rt.alloc();
    let mut bytes = vec![in a; b'x'; 70_000]?;
    bytes[..4].copy_from_slice(b"0000");
    for (step, left) in [(4, 69_996), (5, 69_995), (usize::MAX, 70_000 - 65_520)] {
        let mut from = Device::new(&bytes, step);
        let answer = unless_memory(list_refs(a, &mut from, &mut paper(a)))?;
        assert!(rt; answer.is_ok(), "by {step}");
        assert_eq!(rt; from.bytes.len(), left, "by {step}");
    }
    Ok(())
}
