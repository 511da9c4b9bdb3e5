//! The objects that refs reach, in a repository that has more, as after an interrupted fetch.
use crate::negotiators::history::{add, id};
use gixp_doubles::{MemoryObjects, numbered_ids};
use gixp_graph::{Find, ObjectError, ObjectKind, Objects, Shared};
use gixp_hash::ObjectId;
use gixp_memory::StoredObjects;
use gixp_reachable::reachable_objects;
use std::alloc::{AllocError, Global};
use std::test::Fail;

// 1 is a merge of 2 and 3. 2 and 4 are each other's parents. 9, a parent of 3, is missing. 5 is a commit without its parent, and
// no ref reaches it. 6 is a tag, 7 a blob, and 8 an object whose kind can't be read.
fn history(alloc: Global) -> Result<MemoryObjects, AllocError> {
    let mut objects = MemoryObjects::new(alloc);
    add(alloc, &mut objects, 1, 50, &[2, 3])?;
    add(alloc, &mut objects, 2, 40, &[4])?;
    add(alloc, &mut objects, 3, 30, &[9, 2])?;
    add(alloc, &mut objects, 4, 20, &[2])?;
    add(alloc, &mut objects, 5, 60, &[10])?;
    objects.add(id(6), Some(ObjectKind::Tag))?;
    objects.add(id(7), Some(ObjectKind::Blob))?;
    objects.add(id(8), None)?;
    Ok(objects)
}

// The numbers of the objects that these tips reach.
fn reached<O: Objects>(
    alloc: Global,
    objects: &mut O,
    tips: &[u8],
) -> Result<Vec<u8>, ObjectError> {
    let tips = numbered_ids(alloc, tips)?;
    let found = reachable_objects(alloc, objects, &tips)?;
    let mut numbers = Vec::new(alloc);
    for number in 0..12 {
        if found.has_object(&id(number)) {
            numbers.push(number)?;
        }
    }
    Ok(numbers)
}

// Whether the commit with this number is the same in both.
fn is_same_commit(
    alloc: Global,
    found: &StoredObjects,
    all: &StoredObjects,
    number: u8,
) -> Result<bool, ObjectError> {
    let (Some(one), Some(other)) = (
        found.find_commit(alloc, &id(number))?,
        all.find_commit(alloc, &id(number))?,
    ) else {
        return Ok(false);
    };
    Ok(one.time == other.time && one.parents.as_slice() == other.parents.as_slice())
}

#[test]
fn only_what_a_tip_reaches_is_found(rt: HostRuntime) -> Result<(), Fail> {
    let alloc = rt.alloc();
    let mut objects = history(alloc)?;
    let cases: [(&[u8], &[u8]); 7] = [
        (&[], &[]),
        (&[1], &[1, 2, 3, 4]),
        (&[4, 7], &[2, 4, 7]),
        (&[3, 6, 3], &[2, 3, 4, 6]),
        (&[8, 9], &[8]),
        (&[5], &[5]),
        (&[11], &[]),
    ];
    for (tips, expected) in &cases {
        let numbers = reached(alloc, &mut objects, tips)?;
        assert!(rt; numbers.as_slice() == *expected);
    }
    Ok(())
}

#[test]
fn objects_keep_their_kinds_and_parents(rt: HostRuntime) -> Result<(), Fail> {
    let alloc = rt.alloc();
    let all = history(alloc)?.objects;
    let tips = numbered_ids(alloc, &[1, 6, 7, 8])?;
    let found = reachable_objects(alloc, &mut Shared::new(&all), &tips)?;
    for number in 0..12 {
        let kind = if number == 5 {
            None
        } else {
            all.find_kind(&id(number))
        };
        assert_eq!(rt; found.find_kind(&id(number)), kind);
    }
    for number in 1..5 {
        assert!(rt; is_same_commit(alloc, &found, &all, number)?);
    }
    assert!(rt; found.has_object(&id(8)) && !found.has_object(&id(5)));
    Ok(())
}

#[test]
fn no_commit_is_read_twice(rt: HostRuntime) -> Result<(), Fail> {
    let alloc = rt.alloc();
    let mut objects = history(alloc)?;
    let tips = numbered_ids(alloc, &[3, 1, 2, 9])?;
    reachable_objects(alloc, &mut objects, &tips)?;
    let mut read: Vec<ObjectId> = objects.looked_up;
    read.sort()?;
    assert!(rt; read.as_slice() == numbered_ids(alloc, &[1, 2, 3, 4])?.as_slice());
    Ok(())
}

#[test]
fn a_failed_read_is_an_error(rt: HostRuntime) -> Result<(), Fail> {
    let alloc = rt.alloc();
    let mut objects = history(alloc)?;
    objects.corrupt.insert(id(4))?;
    assert_eq!(rt;
        reached(alloc, &mut objects, &[3]),
        Err(ObjectError::Corrupt)
    );
    let numbers = reached(alloc, &mut objects, &[7])?;
    assert!(rt; numbers.as_slice() == [7].as_slice());
    Ok(())
}
