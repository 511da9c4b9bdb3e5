//! Shallow boundaries in real files.
use crate::fetches::repository::sound;
use crate::fetches::runs::{V2, run};
use crate::transports::memory;
use gixp_fetch::consume::ReadToEnd;
use gixp_hash::ObjectId;
use gixp_progress::Discard;
use gixp_shallow::{Shallow, ShallowError, ShallowFile, shallow_text};
use std::alloc::{AllocError, Global};
use std::num::NonZeroU32;
use std::test::Fail;
use std::{env, fs, io, process};

// A path in the temporary folder that no other process uses.
fn path(rt: &HostRuntime, name: &str) -> io::Result<String> {
    let id = process::id(rt.process());
    let folder = env::temp_dir(rt)?;
    let folder = folder.to_string_lossy();
    Ok(format!(in rt.alloc(); "{folder}/gixp_test_fetch.{id}.{name}")?)
}

const HAD: &str =
    "bbbbbbbbbbbbbbbbbbbbbbbbbbbbbbbbbbbbbbbb\n0123456789012345678901234567890123456789\n";

const KEPT: &str =
    "bbbbbbbbbbbbbbbbbbbbbbbbbbbbbbbbbbbbbbbb\ncccccccccccccccccccccccccccccccccccccccc\n";

// One commit is added to the boundary, and one is removed.
const MOVES: &[u8] = b"0011shallow-info\n0035shallow cccccccccccccccccccccccccccccccccccccccc\n\
    0037unshallow 0123456789012345678901234567890123456789\n\
    0035shallow bbbbbbbbbbbbbbbbbbbbbbbbbbbbbbbbbbbbbbbb\n0001000dpackfile\n0000";

// All commits are removed from the boundary.
const GOES: &[u8] = b"0011shallow-info\n0037unshallow cccccccccccccccccccccccccccccccccccccccc\n\
    0037unshallow bbbbbbbbbbbbbbbbbbbbbbbbbbbbbbbbbbbbbbbb\n0001000dpackfile\n0000";

// The result of a fetch of depth 1 with this last response, with the boundary in this file.
fn fetch_into(rt: &HostRuntime, path: &str, answer: &[u8]) -> Result<String, AllocError> {
    let a = rt.alloc();
    let [greeting, refs, ..] = V2;
    let mut transport = memory(a, &[greeting, refs, answer])?;
    let mut store = ShallowFile::new(rt, a, path)?;
    let depth = Shallow::DepthAtRemote(NonZeroU32::MIN);
    let repository = sound(a, 0)?;
    run(
        a,
        &mut transport,
        repository,
        &mut ReadToEnd,
        &mut Discard,
        &mut store,
        depth,
    )
}

#[test]
fn keeps_a_boundary_in_a_file(rt: HostRuntime) -> Result<(), Fail> {
    let path = path(&rt, "kept")?;
    let path = path.as_str();
    fs::write(&rt, path, HAD)?;
    assert_eq!(rt; fetch_into(&rt, path, MOVES)?.as_str(), "1 rounds");
    assert_eq!(rt; fs::read_to_string(&rt, path)?.as_str(), KEPT);
    assert_eq!(rt; fetch_into(&rt, path, GOES)?.as_str(), "1 rounds");
    assert!(rt; fs::read(&rt, path).is_err());
    Ok(())
}

// The result of such a fetch, and whether the lock file exists afterwards.
fn fetch_and_look(rt: &HostRuntime, path: &str, lock: &str) -> Result<String, AllocError> {
    let text = fetch_into(rt, path, GOES)?;
    let is_locked = match fs::read(rt, lock) {
        Ok(_) => true,
        Err(e) if e.kind() == io::ErrorKind::OutOfMemory => return Err(AllocError),
        Err(_) => false,
    };
    format!(in rt.alloc(); "{text}, locked {is_locked}")
}

// The same with a lock file, which is removed afterwards.
fn fetch_beside_lock(rt: &HostRuntime, path: &str, lock: &str) -> Result<String, Fail> {
    fs::write(rt, lock, "")?;
    let text = fetch_and_look(rt, path, lock)?;
    fs::remove_file(rt, lock)?;
    Ok(text)
}

// The results of a fetch with a lock file and of one without it, a line each.
fn fetch_twice(rt: &HostRuntime, path: &str) -> Result<String, Fail> {
    let lock = format!(in rt.alloc(); "{path}.lock")?;
    let first = fetch_beside_lock(rt, path, lock.as_str())?;
    let second = fetch_and_look(rt, path, lock.as_str())?;
    Ok(format!(in rt.alloc(); "{first}\n{second}\n")?)
}

const REFUSALS: &str = "LockShallowFile(Locked), locked true\n\
    ReadShallowFile(Decode { line: \"zz\" }), locked false\n";

#[test]
fn keeps_away_from_a_lock_file(rt: HostRuntime) -> Result<(), Fail> {
    let path = path(&rt, "locked")?;
    let path = path.as_str();
    fs::write(&rt, path, "zz\n")?;
    assert_eq!(rt; fetch_twice(&rt, path)?.as_str(), REFUSALS);
    assert_eq!(rt; fs::read_to_string(&rt, path)?.as_str(), "zz\n");
    fs::remove_file(&rt, path)?;
    Ok(())
}

// The text of a boundary with one id. A caller's own error may be the store's.
fn boundary_text(alloc: Global, id: ObjectId) -> Result<Vec<u8>, ShallowError> {
    let text = shallow_text(alloc, &[id])?;
    Ok(text)
}

#[test]
fn text_of_a_boundary_fails_as_a_store_does(rt: HostRuntime) -> Result<(), Fail> {
    let id = ObjectId::from_hex(b"cccccccccccccccccccccccccccccccccccccccc")?;
    let text = boundary_text(rt.alloc(), id)?;
    assert_eq!(rt;
        str::from_utf8(&text)?,
        "cccccccccccccccccccccccccccccccccccccccc\n"
    );
    Ok(())
}
