//! Refspecs that matched nothing.
use crate::updates::repository::{map, spec};
use gixp_updates::refs::unmatched::{UnmatchedSpec, unmatched};
use std::test::Fail;

#[test]
fn names_the_refspecs_that_matched_nothing(rt: HostRuntime) -> Result<(), Fail> {
    let alloc = rt.alloc();
    let mut map = map(alloc, b"refs/heads/main:refs/foo/a", b"refs/heads/main", 3)?;
    map.refspecs
        .push(spec(alloc, b"refs/heads/nope:refs/foo/q")?)?;
    map.refspecs
        .push(spec(alloc, b"refs/nope/*:refs/foo/n/*")?)?;
    map.refspecs.push(spec(alloc, b"^refs/heads/old")?)?;
    map.refspecs
        .push(spec(alloc, b"0123456789012345678901234567890123456789")?)?;
    map.refspecs.push(spec(alloc, b"main:refs/foo/b")?)?;
    let found = unmatched(alloc, &map)?;
    assert_eq!(rt;
        found.as_slice(),
        [
            UnmatchedSpec {
                index: 1,
                is_pattern: false
            },
            UnmatchedSpec {
                index: 2,
                is_pattern: true
            }
        ]
        .as_slice()
    );
    Ok(())
}
