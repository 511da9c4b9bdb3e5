//! Recorded sessions in folders, and plans over them.
use bstr::BString;
use gixp_doubles::Paper;
use gixp_graph::{Graph, NoObjects};
use gixp_hash::ObjectId;
use gixp_negotiators::HaveList;
use gixp_planner::{PlanError, parse_haves, plan, read_bodies, read_haves};
use gixp_transport::Body;
use std::alloc::{AllocError, Global};
use std::io::ErrorKind;
use std::test::Fail;
use std::{env, fs, io, process};

const UNREAD: PlanError = PlanError {
    step: "file",
    variant: "Io",
};

// A folder that no other process uses.
fn new_folder(rt: &HostRuntime, name: &str) -> io::Result<String> {
    let id = process::id(rt.process());
    let folder = env::temp_dir(rt)?;
    let folder = folder.to_string_lossy();
    let path = format!(in rt.alloc(); "{folder}/gixp_test_client.{id}.{name}")?;
    fs::create_dir(rt, path.as_str())?;
    Ok(path)
}

// Writes a file of a folder.
fn write_file(rt: &HostRuntime, folder: &str, name: &str, text: &str) -> io::Result<()> {
    let path = format!(in rt.alloc(); "{folder}/{name}")?;
    fs::write(rt, path.as_str(), text)
}

// An answer, unless an allocation failed.
fn unless_memory<T: Drop>(answer: Result<T, PlanError>) -> Result<Result<T, PlanError>, Fail> {
    match answer {
        Err(e) if e.variant == "Memory" => Err(Fail::from(AllocError)),
        answer => Ok(answer),
    }
}

fn counted<T: Drop>(answer: Result<Vec<T>, PlanError>) -> Result<Result<usize, PlanError>, Fail> {
    match unless_memory(answer)? {
        Ok(found) => Ok(Ok(found.len())),
        Err(e) => Ok(Err(e)),
    }
}

// A missing file ends the bodies, or has no haves. A file that can't be read is an error: no path has a NUL.
#[test]
fn reads_a_folder_up_to_what_is_missing(rt: HostRuntime) -> Result<(), Fail> {
    for (folder, want) in [("no such folder", Ok(0)), ("\0", Err(UNREAD))] {
        let bodies = counted(read_bodies(&rt, folder))?;
        assert!(rt; bodies == want, "bodies of {folder}");
        let haves = counted(read_haves(&rt, folder))?;
        assert!(rt; haves == want, "haves of {folder}");
    }
    Ok(())
}

fn body_text(alloc: Global, number: usize) -> Result<String, AllocError> {
    format!(in alloc; "the body {number}\n")
}

// A folder of eleven bodies and three ids, the first of which occurs twice.
fn folder_of_eleven(rt: &HostRuntime) -> io::Result<String> {
    let folder = new_folder(rt, "eleven")?;
    for number in 0..11usize {
        let name = number.to_string(rt.alloc())?;
        let text = body_text(rt.alloc(), number)?;
        write_file(rt, folder.as_str(), name.as_str(), text.as_str())?;
    }
    write_file(rt, folder.as_str(), "12", "after one that is missing")?;
    let haves = "0202020202020202020202020202020202020202\n\
        0101010101010101010101010101010101010101\n\
        0202020202020202020202020202020202020202\n";
    write_file(rt, folder.as_str(), "haves", haves)?;
    Ok(folder)
}

fn is_body(body: &Body, text: &str) -> bool {
    match body {
        Body::Bytes(bytes) => bytes.as_slice() == text.as_bytes(),
        Body::Fail(_) => false,
    }
}

// Whether these are the eleven bodies, in the order of their numbers.
fn are_eleven(alloc: Global, bodies: &[Body]) -> Result<bool, AllocError> {
    for (number, body) in bodies.iter().enumerate() {
        if !is_body(body, body_text(alloc, number)?.as_str()) {
            return Ok(false);
        }
    }
    Ok(bodies.len() == 11)
}

fn id(byte: u8) -> ObjectId {
    ObjectId { bytes: [byte; 20] }
}

#[test]
fn reads_what_a_folder_has(rt: HostRuntime) -> Result<(), Fail> {
    let folder = folder_of_eleven(&rt)?;
    let bodies = unless_memory(read_bodies(&rt, folder.as_str()))?;
    let haves = unless_memory(read_haves(&rt, folder.as_str()))?;
    fs::remove_dir_all(&rt, folder.as_str())?;
    let (Ok(bodies), Ok(haves)) = (bodies, haves) else {
        return Err("a folder that can be read".into());
    };
    assert!(rt; are_eleven(rt.alloc(), &bodies)?);
    assert!(rt; haves.as_slice() == [id(2), id(1), id(2)].as_slice());
    Ok(())
}

// A session of version 2 with these refs and a pack.
fn folder_of_refs(rt: &HostRuntime, name: &str, refs: &str) -> io::Result<String> {
    let folder = new_folder(rt, name)?;
    let path = folder.as_str();
    let greeting =
        "000eversion 2\n0013ls-refs=unborn\n0012fetch=shallow\n0017object-format=sha1\n0000";
    write_file(rt, path, "0", greeting)?;
    write_file(rt, path, "1", refs)?;
    write_file(rt, path, "2", "000dpackfile\n0006\x01P0000")?;
    let haves = "cccccccccccccccccccccccccccccccccccccccc\n\
        dddddddddddddddddddddddddddddddddddddddd\n";
    write_file(rt, path, "haves", haves)?;
    Ok(folder)
}

// A session of version 2 with two refs.
fn session_folder(rt: &HostRuntime, name: &str) -> io::Result<String> {
    let refs = "003d0123456789012345678901234567890123456789 refs/heads/main\n\
        003abbbbbbbbbbbbbbbbbbbbbbbbbbbbbbbbbbbbbbbb refs/tags/v1\n0000";
    folder_of_refs(rt, name, refs)
}

const PLANNED: &str =
    "request 1\n> command=ls-refs\n> agent=git/gixp-plan\n> 0001\n> symrefs\n> peel\n> unborn\n\
    > ref-prefix refs/heads/\n> ref-prefix refs/tags/\n> 0000\n\
    request 2\n> command=fetch\n> agent=git/gixp-plan\n> 0001\n> thin-pack\n> ofs-delta\n\
    > want 0123456789012345678901234567890123456789\n> want bbbbbbbbbbbbbbbbbbbbbbbbbbbbbbbbbbbbbbbb\n\
    > have cccccccccccccccccccccccccccccccccccccccc\n> have dddddddddddddddddddddddddddddddddddddddd\n\
    > done\n> 0000\n\
    map 0123456789012345678901234567890123456789 refs/heads/main refs/remotes/origin/main\n\
    map bbbbbbbbbbbbbbbbbbbbbbbbbbbbbbbbbbbbbbbb refs/tags/v1 -\npack\n";

fn specs(alloc: Global) -> Result<Vec<BString>, AllocError> {
    let mut specs = Vec::new(alloc);
    specs.push(BString::from_slice(alloc, "refs/heads/*:refs/remotes/origin/*")?)?;
    specs.push(BString::from_slice(alloc, "refs/tags/*")?)?;
    Ok(specs)
}

// Plans over the session of a folder.
fn plan_folder(
    rt: &HostRuntime,
    folder: &str,
    specs: &[BString],
    paper: &mut Paper,
) -> Result<(), PlanError> {
    let bodies = read_bodies(rt, folder)?;
    let mut negotiator = HaveList::new(read_haves(rt, folder)?);
    let mut graph = Graph::new(rt.alloc(), NoObjects);
    plan(
        rt.alloc(),
        bodies,
        &NoObjects,
        &mut graph,
        &mut negotiator,
        specs,
        paper,
    )
}

// The result of a plan over the session, unless an allocation other than the paper's failed.
fn planned(
    rt: &HostRuntime,
    folder: &str,
    paper: &mut Paper,
) -> Result<Result<(), PlanError>, Fail> {
    let specs = specs(rt.alloc())?;
    let answer = plan_folder(rt, folder, &specs, paper);
    if paper.kind == ErrorKind::OutOfMemory {
        return Ok(answer);
    }
    unless_memory(answer)
}

#[test]
fn plans_over_a_folder(rt: HostRuntime) -> Result<(), Fail> {
    let folder = session_folder(&rt, "plan")?;
    let mut paper = Paper::new(rt.alloc(), 100);
    let answer = planned(&rt, folder.as_str(), &mut paper)?;
    fs::remove_dir_all(&rt, folder.as_str())?;
    assert!(rt; answer == Ok(()));
    assert!(rt; paper.bytes.as_slice() == PLANNED.as_bytes());
    Ok(())
}

// A flush that fails after a whole text is reported, also where the session failed and the text is shorter.
#[test]
fn tells_of_a_flush_that_fails(rt: HostRuntime) -> Result<(), Fail> {
    let folder = session_folder(&rt, "flush")?;
    let mut paper = Paper::new(rt.alloc(), usize::MAX);
    paper.flushes = false;
    let answer = planned(&rt, folder.as_str(), &mut paper)?;
    fs::remove_dir_all(&rt, folder.as_str())?;
    assert!(rt; answer == Err(UNREAD));
    if paper.bytes.len() < PLANNED.len() {
        return Err(Fail::from(AllocError));
    }
    assert!(rt; paper.bytes.as_slice() == PLANNED.as_bytes());
    Ok(())
}

// A thousand branches, and the lines of their mappings.
fn thousand_branches(alloc: Global) -> Result<(String, String), AllocError> {
    let mut refs = String::new(alloc);
    let mut lines = String::new(alloc);
    let id = "0123456789012345678901234567890123456789";
    for number in 1000..2000usize {
        let branch = format!(in alloc; "0043{id} refs/heads/topic-{number}\n")?;
        refs.push_str(branch.as_str())?;
        let line = format!(in alloc;
            "map {id} refs/heads/topic-{number} refs/remotes/origin/topic-{number}\n"
        )?;
        lines.push_str(line.as_str())?;
    }
    refs.push_str("0000")?;
    lines.push_str("pack\n")?;
    Ok((refs, lines))
}

// A piece of a long text ends with the lines, of 98 bytes each and of up to 512 mappings, that made it long. The piece stays written
// where the next write fails.
#[test]
fn writes_a_long_text_in_pieces(rt: HostRuntime) -> Result<(), Fail> {
    let (refs, lines) = thousand_branches(rt.alloc())?;
    let folder = folder_of_refs(&rt, "long", refs.as_str())?;
    let mut whole = Paper::new(rt.alloc(), usize::MAX);
    let mut broken = Paper::failing(rt.alloc(), usize::MAX, 1, ErrorKind::BrokenPipe);
    let answers = (
        planned(&rt, folder.as_str(), &mut whole)?,
        planned(&rt, folder.as_str(), &mut broken)?,
    );
    fs::remove_dir_all(&rt, folder.as_str())?;
    assert!(rt; answers == (Ok(()), Err(UNREAD)));
    assert!(rt; whole.bytes.as_slice().ends_with(lines.as_bytes()));
    assert!(rt; whole.bytes.as_slice().starts_with(&broken.bytes));
    assert!(rt; (65_536..65_536 + 512 * 98).contains(&broken.bytes.len()));
    Ok(())
}

// Whether a plan reports the failure of the write of this number with this kind, after a beginning of the text.
fn breaks_off(
    rt: &HostRuntime,
    folder: &str,
    fails: u64,
    kind: ErrorKind,
    variant: &'static str,
) -> Result<bool, Fail> {
    let mut paper = Paper::failing(rt.alloc(), 150, fails, kind);
    let answer = planned(rt, folder, &mut paper)?;
    let refused = Err(PlanError {
        step: "file",
        variant,
    });
    Ok(answer == refused && PLANNED.as_bytes().starts_with(&paper.bytes))
}

#[test]
fn reports_each_write_that_fails(rt: HostRuntime) -> Result<(), Fail> {
    let folder = session_folder(&rt, "write")?;
    for fails in 0..4u64 {
        let folder = folder.as_str();
        assert!(rt;
            breaks_off(&rt, folder, fails, ErrorKind::BrokenPipe, "Io")?,
            "{fails}"
        );
        assert!(rt;
            breaks_off(&rt, folder, fails, ErrorKind::OutOfMemory, "Memory")?,
            "{fails}"
        );
    }
    fs::remove_dir_all(&rt, folder.as_str())?;
    Ok(())
}

// An interrupted write is repeated.
#[test]
fn writes_on_where_a_write_is_interrupted(rt: HostRuntime) -> Result<(), Fail> {
    let folder = session_folder(&rt, "interrupted")?;
    let mut paper = Paper::failing(rt.alloc(), 150, 2, ErrorKind::Interrupted);
    let answer = planned(&rt, folder.as_str(), &mut paper)?;
    fs::remove_dir_all(&rt, folder.as_str())?;
    assert!(rt; answer == Ok(()));
    assert!(rt; paper.bytes.as_slice() == PLANNED.as_bytes());
    Ok(())
}

#[test]
fn tells_the_step_and_the_variant(rt: HostRuntime) -> Result<(), Fail> {
    let a = rt.alloc();
    match unless_memory(parse_haves(a, b"no id\n"))? {
        Ok(ids) => assert_eq!(rt; ids.len(), usize::MAX, "it is no id"),
        Err(e) => assert_eq!(rt; format!(in a; "{e}")?.as_str(), "have Decode"),
    }
    Ok(())
}
