//! The update of one local ref.
use crate::updates::repository::{first_update, id, map, options, refs, text};
use gixp_refmap::fetch::Tags;
use gixp_updates::refs::update::Mode;
use gixp_updates::refs::{Edit, Update};
use std::alloc::Global;
use std::test::Fail;

// The update of a ref that the refspec maps, where the server's ref has one object and the local ref another.
fn update_of(alloc: Global, asked: &[u8], local: &[u8], old: u8, new: u8) -> Result<Update, Fail> {
    let map = map(alloc, asked, b"refs/heads/main", new)?;
    first_update(
        alloc,
        &map,
        &refs(alloc, local, old)?,
        &options(Tags::None, &[]),
    )
}

#[test]
fn moves_by_a_fast_forward(rt: HostRuntime) -> Result<(), Fail> {
    let update = update_of(
        rt.alloc(),
        b"refs/heads/main:refs/foo/a",
        b"refs/foo/a",
        1,
        3,
    )?;
    assert_eq!(rt; update.mode, Mode::FastForward);
    assert_eq!(rt;
        update.edit,
        Some(Edit {
            previous: Some(id(1)),
            new: id(3)
        })
    );
    Ok(())
}

#[test]
fn moves_to_another_branch_by_force_alone(rt: HostRuntime) -> Result<(), Fail> {
    let alloc = rt.alloc();
    let plain = update_of(alloc, b"refs/heads/main:refs/foo/a", b"refs/foo/a", 3, 4)?;
    assert_eq!(rt; plain.mode, Mode::RejectedNonFastForward);
    assert_eq!(rt; plain.edit, None);
    let forced = update_of(alloc, b"+refs/heads/main:refs/foo/a", b"refs/foo/a", 3, 4)?;
    assert_eq!(rt; forced.mode, Mode::Forced);
    Ok(())
}

#[test]
fn makes_what_is_not_there_and_leaves_what_is_the_same(rt: HostRuntime) -> Result<(), Fail> {
    let alloc = rt.alloc();
    let made = update_of(alloc, b"refs/heads/main:refs/foo/a", b"refs/foo/b", 3, 3)?;
    assert_eq!(rt; made.mode, Mode::New);
    let same = update_of(alloc, b"refs/heads/main:refs/foo/a", b"refs/foo/a", 3, 3)?;
    assert_eq!(rt; same.mode, Mode::NoChangeNeeded);
    Ok(())
}

#[test]
fn swaps_blobs_and_commits_as_git_does(rt: HostRuntime) -> Result<(), Fail> {
    let alloc = rt.alloc();
    let blob = update_of(alloc, b"refs/heads/main:refs/foo/a", b"refs/foo/a", 11, 12)?;
    assert_eq!(rt; blob.mode, Mode::Forced);
    let commit = update_of(alloc, b"refs/heads/main:refs/foo/a", b"refs/foo/a", 1, 11)?;
    assert_eq!(rt; commit.mode, Mode::Forced);
    let branch = update_of(
        alloc,
        b"+refs/heads/main:refs/heads/b",
        b"refs/heads/c",
        1,
        11,
    )?;
    assert_eq!(rt; branch.mode, Mode::RejectedNonCommit);
    let tag = update_of(alloc, b"refs/heads/main:refs/foo/a", b"refs/foo/a", 1, 14)?;
    assert_eq!(rt; tag.mode, Mode::RejectedNonFastForward);
    Ok(())
}

#[test]
fn moves_a_tag_by_force_alone(rt: HostRuntime) -> Result<(), Fail> {
    let alloc = rt.alloc();
    let plain = update_of(alloc, b"refs/heads/main:refs/tags/t", b"refs/tags/t", 1, 3)?;
    assert_eq!(rt; plain.mode, Mode::RejectedTagUpdate);
    let forced = update_of(alloc, b"+refs/heads/main:refs/tags/t", b"refs/tags/t", 1, 3)?;
    assert_eq!(rt; forced.mode, Mode::Forced);
    Ok(())
}

#[test]
fn includes_the_tags_whose_objects_are_there(rt: HostRuntime) -> Result<(), Fail> {
    let alloc = rt.alloc();
    let none = refs(alloc, b"", 0)?;
    let there = map(alloc, b"refs/heads/x", b"refs/tags/v1", 3)?;
    let included = first_update(alloc, &there, &none, &options(Tags::Included, &[]))?;
    assert_eq!(rt; included.mode, Mode::New);
    let missing = map(alloc, b"refs/heads/x", b"refs/tags/v1", 9)?;
    let left = first_update(alloc, &missing, &none, &options(Tags::Included, &[]))?;
    assert_eq!(rt; left.mode, Mode::ImplicitTagNotSentByRemote);
    let all = first_update(alloc, &missing, &none, &options(Tags::All, &[]))?;
    assert_eq!(rt; all.mode, Mode::RejectedSourceObjectNotFound { id: id(9) });
    Ok(())
}

#[test]
fn leaves_unsafe_names_and_branches_of_work_trees(rt: HostRuntime) -> Result<(), Fail> {
    let alloc = rt.alloc();
    let none = refs(alloc, b"", 0)?;
    let hostile = map(alloc, b"refs/heads/*:refs/r/*", b"refs/heads/../../x", 3)?;
    let refused = first_update(alloc, &hostile, &none, &options(Tags::None, &[]))?;
    assert_eq!(rt; refused.mode, Mode::RejectedUnsafeName);
    let main = map(
        alloc,
        b"refs/heads/main:refs/heads/main",
        b"refs/heads/main",
        3,
    )?;
    let checked_out = [text(alloc, b"refs/heads/main")?];
    let left = first_update(alloc, &main, &none, &options(Tags::None, &checked_out))?;
    assert_eq!(rt; left.mode, Mode::RejectedCurrentlyCheckedOut);
    Ok(())
}

// Whether the update of a ref fails that is 3 on the server and 1 locally, by the tags of the fetch.
fn fails(alloc: Global, asked: &[u8], name: &[u8], tags: Tags) -> Result<bool, Fail> {
    let map = map(alloc, asked, name, 3)?;
    let update = first_update(alloc, &map, &refs(alloc, name, 1)?, &options(tags, &[]))?;
    Ok(match map.mappings.first() {
        Some(mapping) => update.fails(&map, mapping, tags),
        None => false,
    })
}

// git 2.39.5 exits with 0 or 1 in the same cases: a tag moved on the server, or a name isn't valid.
#[test]
fn fails_where_git_does(rt: HostRuntime) -> Result<(), Fail> {
    let alloc = rt.alloc();
    let branches = b"refs/heads/*:refs/remotes/o/*";
    assert!(rt; !fails(alloc, branches, b"refs/tags/v1", Tags::Included)?);
    assert!(rt; fails(alloc, branches, b"refs/tags/v1", Tags::All)?);
    assert!(rt;
        fails(
            alloc,
            b"refs/tags/*:refs/tags/*",
            b"refs/tags/v1",
            Tags::Included
        )?
    );
    assert!(rt; !fails(alloc, branches, b"refs/heads/a..b", Tags::Included)?);
    Ok(())
}
