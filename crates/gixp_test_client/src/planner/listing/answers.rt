//! Listed responses: test vectors, responses of real servers compared with git's output, and devices that fail or
//! return fewer bytes than requested.
use crate::planner::listing::{listed, paper, recorded, unless_memory};
use gixp_doubles::{Device, Paper};
use gixp_planner::listing::{ListError, list_refs};
use std::alloc::Global;
use std::io::ErrorKind;
use std::test::Fail;

// Replaces `$`, `%` and `&` of a test vector by three ids.
fn spelled(alloc: Global, row: &str) -> Result<String, Fail> {
    let mut text = String::new(alloc);
    for letter in row.chars() {
        match letter {
            '$' => text.push_str("0123456789012345678901234567890123456789")?,
            '%' => text.push_str("bbbbbbbbbbbbbbbbbbbbbbbbbbbbbbbbbbbbbbbb")?,
            '&' => text.push_str("cccccccccccccccccccccccccccccccccccccccc")?,
            letter => text.push(letter)?,
        }
    }
    Ok(text)
}

#[test]
fn lists_or_refuses(rt: HostRuntime) -> Result<(), Fail> {
    let a = rt.alloc();
    for (row, want) in [
        ("003d$ refs/heads/main\n0000", "$ refs/heads/main\n"),
        ("003D$ refs/heads/main\n0000", "$ refs/heads/main\n"),
        ("003d$ refs/heads/main\n0001", "$ refs/heads/main\n"),
        ("003d$ refs/heads/main\n00000004", "$ refs/heads/main\n"),
        ("0000", ""),
        (
            "006a% refs/tags/v1 peeled:&\n0000",
            "% refs/tags/v1 peeled:&\n",
        ),
        (
            "0050$ HEAD symref-target:refs/heads/main\n0000",
            "$ HEAD symref-target:refs/heads/main\n",
        ),
        (
            "007d% HEAD peeled:& symref-target:refs/tags/v1\n0000",
            "% HEAD symref-target:refs/tags/v1 peeled:&\n",
        ),
        (
            "002eunborn HEAD symref-target:refs/heads/main\n0000",
            "unborn HEAD symref-target:refs/heads/main\n",
        ),
        ("0010unborn HEAD\n", "InvariantViolation"),
        ("002c$", "MalformedV2RefLine"),
        ("0034$ x foo:1\n", "UnknownAttribute"),
        ("0008x y\n", "Id"),
        ("0011ERR no access", "UploadPack"),
        ("0002", "Reader"),
        ("0003", "DecodePacketline"),
        ("0004", "DecodePacketline"),
        ("00g1", "DecodePacketline"),
        ("fff1", "DecodePacketline"),
        ("", "Io"),
        ("00", "Io"),
        ("003d", "Io"),
        ("003d$ refs/heads/main\n", "Io"),
        ("003d$ refs/heads/main\n002c$", "MalformedV2RefLine"),
    ] {
        let bytes = spelled(a, row)?;
        let wanted = spelled(a, want)?;
        for step in [1, 7, usize::MAX] {
            let got = listed(a, Device::new(bytes.as_bytes(), step), paper(a))?;
            assert_eq!(rt; got.as_slice(), wanted.as_bytes(), "of {row} by {step}");
        }
    }
    Ok(())
}

// What `git ls-remote --symref` prints for the listed lines.
fn as_git(alloc: Global, lines: &[u8]) -> Result<Vec<u8>, Fail> {
    let mut text = Vec::new(alloc);
    for line in lines.split(|byte| *byte == b'\n') {
        let mut words = line.split(|byte| *byte == b' ');
        let (Some(id), Some(name)) = (words.next(), words.next()) else {
            continue;
        };
        let mut peeled = None;
        for word in words {
            if let Some(target) = word.strip_prefix(b"symref-target:") {
                if id != b"unborn".as_slice() {
                    push_line(&mut text, &[b"ref: ", target, b"\t", name])?;
                }
            } else {
                peeled = word.strip_prefix(b"peeled:");
            }
        }
        if id != b"unborn".as_slice() {
            push_line(&mut text, &[id, b"\t", name])?;
        }
        if let Some(object) = peeled {
            push_line(&mut text, &[object, b"\t", name, b"^{}"])?;
        }
    }
    Ok(text)
}

fn push_line(text: &mut Vec<u8>, parts: &[&[u8]]) -> Result<(), Fail> {
    for part in parts {
        text.extend_from_slice(part)?;
    }
    text.push(b'\n')?;
    Ok(())
}

#[test]
fn lists_what_git_lists(rt: HostRuntime) -> Result<(), Fail> {
    let a = rt.alloc();
    for (answer, refs) in [
        recorded::PLAIN,
        recorded::TAGGED,
        recorded::UNBORN,
        recorded::DETACHED,
        recorded::SHALLOW,
    ] {
        for step in [1, 1000, usize::MAX] {
            let got = listed(a, Device::new(answer, step), paper(a))?;
            assert!(rt; !got.ends_with(b"Memory"), "Memory");
            assert_eq!(rt; as_git(a, got.as_slice())?.as_slice(), refs, "by {step}");
        }
    }
    let want =
        "7257effbd41e1233eaae5744e614c5c728e3c979 HEAD\n7257effbd41e1233eaae5744e614c5c728e3c979 HEAD\n7257effbd41e1233eaae5744e614c5c728e3c979 refs/heads/main\n";
    let got = listed(a, Device::new(recorded::SPACED, 5), paper(a))?;
    assert_eq!(rt; got.as_slice(), want.as_bytes());
    Ok(())
}

// 2,000 refs don't fit into the reader's buffer.
#[test]
fn lists_more_than_a_buffer(rt: HostRuntime) -> Result<(), Fail> {
    let a = rt.alloc();
    let mut answer = String::new(a);
    let mut want = String::new(a);
    for number in 0..2000 {
        let line = format!(in a;
            "0123456789012345678901234567890123456789 refs/heads/{number:04}\n"
        )?;
        answer.push_str("003d")?;
        answer.push_str(line.as_str())?;
        want.push_str(line.as_str())?;
    }
    answer.push_str("0000")?;
    for step in [7, 4096, usize::MAX] {
        let got = listed(a, Device::new(answer.as_bytes(), step), paper(a))?;
        assert!(rt; !got.ends_with(b"Memory"), "Memory");
        assert!(rt; got.as_slice() == want.as_bytes(), "by {step}");
    }
    Ok(())
}

#[test]
fn refuses_every_beginning_and_takes_every_cut(rt: HostRuntime) -> Result<(), Fail> {
    let a = rt.alloc();
    let (answer, _) = recorded::TAGGED;
    assert_eq!(rt; answer.len(), 912);
    let whole = listed(a, Device::new(answer, usize::MAX), paper(a))?;
    for end in 0..answer.len() {
        let got = listed(a, Device::new(&answer[..end], usize::MAX), paper(a))?;
        assert_eq!(rt; got.as_slice(), b"Io".as_slice(), "of {end} bytes");
        let got = listed(a, Device::new(answer, end.saturating_add(1)), paper(a))?;
        assert_eq!(rt; got.as_slice(), whole.as_slice(), "by {end} and one");
    }
    Ok(())
}

#[test]
fn reports_devices_that_fail(rt: HostRuntime) -> Result<(), Fail> {
    let a = rt.alloc();
    let bytes = b"003d0123456789012345678901234567890123456789 refs/heads/main\n0000";
    for fails in 0..13u64 {
        for kind in [ErrorKind::Interrupted, ErrorKind::ConnectionReset] {
            let from = Device::failing(bytes, 5, fails, kind);
            let got = listed(a, from, paper(a))?;
            assert_eq!(rt; got.as_slice(), b"Io".as_slice(), "at read {fails}");
        }
    }
    for fails in 0..4u64 {
        let mut to = Paper::failing(a, 15, fails, ErrorKind::BrokenPipe);
        let answer = unless_memory(list_refs(a, &mut Device::new(bytes, usize::MAX), &mut to))?;
        assert!(rt;
            matches!(answer, Err(ListError::Io(ErrorKind::BrokenPipe))),
            "at write {fails}"
        );
        assert!(rt;
            bytes[4..61].starts_with(to.bytes.as_slice()),
            "at write {fails}"
        );
    }
    let got = listed(a, Device::new(bytes, usize::MAX), Paper::new(a, 3))?;
    assert_eq!(rt; got.as_slice(), &bytes[4..61]);
    Ok(())
}

#[test]
fn names_each_refusal(rt: HostRuntime) -> Result<(), Fail> {
    use gixp_refs::handshake::refs::parse::{Error, Invariant};
    use gixp_packetline::PacketError;
    let a = rt.alloc();
    for (error, text, variant) in [
        (ListError::Io(ErrorKind::Other), "Io", "Io"),
        (ListError::Parse(Error::Io(ErrorKind::Other)), "Io", "Io"),
        (ListError::Parse(Error::Memory), "Memory", "Memory"),
        (
            ListError::Parse(Error::DecodePacketline(PacketError::HexDecode)),
            "HexDecode",
            "DecodePacketline",
        ),
        (
            ListError::Parse(Error::InvariantViolation {
                message: Invariant::UnbornTag,
            }),
            "got 'unborn' as tag target",
            "InvariantViolation",
        ),
    ] {
        assert_eq!(rt; format!(in a; "{error}")?.as_str(), text);
        assert_eq!(rt; error.variant(), variant);
    }
    Ok(())
}
