//! Advertisements that arrive in pieces and get the names of missing capabilities, and requests without these capabilities.
use crate::pieces::{PieceReader, read_until};
use gixp_plain_requests::{HeldRequests, Missing, NamedCapabilities, sent_request};
use std::alloc::AllocError;
use std::io::{self, ErrorKind, Write};
use std::process::Abort;
use std::test::Fail;

// Expects these bytes of an advertisement that arrives and is read in pieces of any size.
fn expect<R: Abort + AllocGlobal>(rt: &R, given: &[u8], wanted: &[u8]) -> Result<(), AllocError> {
    for most in [1, 3, 300] {
        for room in [1, 16] {
            for fails in [false, true] {
                let pieces = PieceReader::new(given, most, fails);
                let mut reader = NamedCapabilities::new(rt.alloc(), pieces)?;
                let (received, _is_refused) = read_until(rt.alloc(), &mut reader, room, 400)?;
                assert_eq!(rt; received.as_slice(), wanted);
            }
        }
    }
    Ok(())
}

#[test]
fn names_missing_capabilities(rt: HostRuntime) -> Result<(), Fail> {
    let cases: [(&[u8], &[u8]); 8] = [
        // the capabilities of go-git's server
        (
            b"0027id HEAD\0agent=go-git/5.x ofs-delta\n0000",
            b"0054id HEAD\0agent=go-git/5.x ofs-delta multi_ack_detailed side-band-64k include-tag\n0000",
        ),
        // those of an old git
        (
            b"0062id HEAD\0multi_ack thin-pack side-band side-band-64k ofs-delta shallow no-progress include-tag\n0000",
            b"0075id HEAD\0multi_ack thin-pack side-band side-band-64k ofs-delta shallow no-progress include-tag multi_ack_detailed\n0000",
        ),
        // one side-band is enough
        (
            b"0029id HEAD\0multi_ack_detailed side-band\n000eid refs/x\n0000",
            b"0035id HEAD\0multi_ack_detailed side-band include-tag\n000eid refs/x\n0000",
        ),
        // a line without an LF
        (
            b"002aid HEAD\0multi_ack_detailed include-tag0000",
            b"0038id HEAD\0multi_ack_detailed include-tag side-band-64k0000",
        ),
        // no capabilities
        (
            b"000did HEAD\0\n0000",
            b"003aid HEAD\0 multi_ack_detailed side-band-64k include-tag\n0000",
        ),
        // version 1
        (
            b"000eversion 1\n0018id HEAD\0include-tag\n0000",
            b"000eversion 1\n0039id HEAD\0include-tag multi_ack_detailed side-band-64k\n0000",
        ),
        // version 1, without an LF
        (
            b"000dversion 10018id HEAD\0include-tag\n0000",
            b"000dversion 10039id HEAD\0include-tag multi_ack_detailed side-band-64k\n0000",
        ),
        // names are whole words; a value changes nothing
        (
            b"0052id HEAD\0multi_ack_detailedx xmulti_ack_detailed include-tag=1 side-band-64k=x\n0000",
            b"0065id HEAD\0multi_ack_detailedx xmulti_ack_detailed include-tag=1 side-band-64k=x multi_ack_detailed\n0000",
        ),
    ];
    for (given, wanted) in cases {
        expect(&rt, given, wanted)?;
    }
    Ok(())
}

#[test]
fn leaves_other_advertisements(rt: HostRuntime) -> Result<(), Fail> {
    let cases: [&[u8]; 18] = [
        b"",
        b"00",
        b"0000",
        b"0001",
        b"0000000did HEAD\0\n",
        b"000eversion 2\n000cls-refs\n0000",
        b"000eversion 1\n0000",
        b"000eversion 1\n",
        b"000eversion 1",
        b"000eversion 2\n000did HEAD\0\n",
        b"000fERR denied\n",
        b"000cid HEAD\n0000",
        b"0018id HEAD\0include-tag",
        b"zzzzid HEAD\0include-tag",
        b"fff1id HEAD\0",
        b"0004000did HEAD\0\n",
        b"0003000did HEAD\0\n",
        b"0047id HEAD\0multi_ack_detailed multi_ack side-band include-tag agent=x\n0000",
    ];
    for given in cases {
        expect(&rt, given, given)?;
    }
    Ok(())
}

// What is missing: `multi_ack_detailed`, `multi_ack`, the side-bands, `include-tag`, `agent`.
fn missing_of(missing: [bool; 5]) -> Missing {
    let [multi_ack_detailed, multi_ack, side_band, include_tag, agent] = missing;
    Missing {
        multi_ack_detailed,
        multi_ack,
        side_band,
        include_tag,
        agent,
    }
}

const NONE: [bool; 5] = [false; 5];

#[test]
fn requests_what_is_offered(rt: HostRuntime) -> Result<(), Fail> {
    let cases: [([bool; 5], &[u8], &[u8]); 14] = [
        // nothing is missing
        (
            NONE,
            b"0074want 0123456789012345678901234567890123456781 multi_ack_detailed side-band-64k thin-pack agent=gixp include-tag\n0032want 0123456789012345678901234567890123456782\n00000032have 0123456789012345678901234567890123456789\n0040want 0123456789012345678901234567890123456789 side-band-64k\n0009done\n",
            b"0074want 0123456789012345678901234567890123456781 multi_ack_detailed side-band-64k thin-pack agent=gixp include-tag\n0032want 0123456789012345678901234567890123456782\n00000032have 0123456789012345678901234567890123456789\n0040want 0123456789012345678901234567890123456789 side-band-64k\n0009done\n",
        ),
        // `multi_ack` in place of `multi_ack_detailed`
        (
            [true, false, false, false, false],
            b"0074want 0123456789012345678901234567890123456781 multi_ack_detailed side-band-64k thin-pack agent=gixp include-tag\n00000032have 0123456789012345678901234567890123456789\n0040want 0123456789012345678901234567890123456789 side-band-64k\n0009done\n",
            b"006bwant 0123456789012345678901234567890123456781 multi_ack side-band-64k thin-pack agent=gixp include-tag\n00000032have 0123456789012345678901234567890123456789\n0040want 0123456789012345678901234567890123456789 side-band-64k\n0009done\n",
        ),
        // neither
        (
            [true, true, false, false, false],
            b"0074want 0123456789012345678901234567890123456781 multi_ack_detailed side-band-64k thin-pack agent=gixp include-tag\n00000032have 0123456789012345678901234567890123456789\n0040want 0123456789012345678901234567890123456789 side-band-64k\n0009done\n",
            b"0061want 0123456789012345678901234567890123456781 side-band-64k thin-pack agent=gixp include-tag\n00000032have 0123456789012345678901234567890123456789\n0040want 0123456789012345678901234567890123456789 side-band-64k\n0009done\n",
        ),
        // `multi_ack` alone is missing
        (
            [false, true, false, false, false],
            b"0074want 0123456789012345678901234567890123456781 multi_ack_detailed side-band-64k thin-pack agent=gixp include-tag\n00000032have 0123456789012345678901234567890123456789\n0040want 0123456789012345678901234567890123456789 side-band-64k\n0009done\n",
            b"0074want 0123456789012345678901234567890123456781 multi_ack_detailed side-band-64k thin-pack agent=gixp include-tag\n00000032have 0123456789012345678901234567890123456789\n0040want 0123456789012345678901234567890123456789 side-band-64k\n0009done\n",
        ),
        // no side-band
        (
            [false, false, true, false, false],
            b"0074want 0123456789012345678901234567890123456781 multi_ack_detailed side-band-64k thin-pack agent=gixp include-tag\n00000032have 0123456789012345678901234567890123456789\n0040want 0123456789012345678901234567890123456789 side-band-64k\n0009done\n",
            b"0066want 0123456789012345678901234567890123456781 multi_ack_detailed thin-pack agent=gixp include-tag\n00000032have 0123456789012345678901234567890123456789\n0040want 0123456789012345678901234567890123456789 side-band-64k\n0009done\n",
        ),
        // no `include-tag`
        (
            [false, false, false, true, false],
            b"0074want 0123456789012345678901234567890123456781 multi_ack_detailed side-band-64k thin-pack agent=gixp include-tag\n00000032have 0123456789012345678901234567890123456789\n0040want 0123456789012345678901234567890123456789 side-band-64k\n0009done\n",
            b"0068want 0123456789012345678901234567890123456781 multi_ack_detailed side-band-64k thin-pack agent=gixp\n00000032have 0123456789012345678901234567890123456789\n0040want 0123456789012345678901234567890123456789 side-band-64k\n0009done\n",
        ),
        // no `agent`
        (
            [false, false, false, false, true],
            b"0074want 0123456789012345678901234567890123456781 multi_ack_detailed side-band-64k thin-pack agent=gixp include-tag\n00000032have 0123456789012345678901234567890123456789\n0040want 0123456789012345678901234567890123456789 side-band-64k\n0009done\n",
            b"0069want 0123456789012345678901234567890123456781 multi_ack_detailed side-band-64k thin-pack include-tag\n00000032have 0123456789012345678901234567890123456789\n0040want 0123456789012345678901234567890123456789 side-band-64k\n0009done\n",
        ),
        // all
        (
            [true, true, true, true, true],
            b"0074want 0123456789012345678901234567890123456781 multi_ack_detailed side-band-64k thin-pack agent=gixp include-tag\n0032want 0123456789012345678901234567890123456782\n00000032have 0123456789012345678901234567890123456789\n0040want 0123456789012345678901234567890123456789 side-band-64k\n0009done\n",
            b"003cwant 0123456789012345678901234567890123456781 thin-pack\n0032want 0123456789012345678901234567890123456782\n00000032have 0123456789012345678901234567890123456789\n0040want 0123456789012345678901234567890123456789 side-band-64k\n0009done\n",
        ),
        // names are whole words
        (
            [true, true, true, true, true],
            b"005ewant 0123456789012345678901234567890123456781 multi_ack_detailedx side-band-64k=1 xagent=\n00000032have 0123456789012345678901234567890123456789\n0040want 0123456789012345678901234567890123456789 side-band-64k\n0009done\n",
            b"005ewant 0123456789012345678901234567890123456781 multi_ack_detailedx side-band-64k=1 xagent=\n00000032have 0123456789012345678901234567890123456789\n0040want 0123456789012345678901234567890123456789 side-band-64k\n0009done\n",
        ),
        // the library's order, and git's
        (
            NONE,
            b"0074want 0123456789012345678901234567890123456781 multi_ack_detailed side-band-64k thin-pack agent=gixp include-tag\n000ddeepen 3\n0035shallow 0123456789012345678901234567890123456789\n0032want 0123456789012345678901234567890123456782\n000dfilter x\n0013deepen-since 5\n0032want 0123456789012345678901234567890123456783\n00000032have 0123456789012345678901234567890123456789\n0040want 0123456789012345678901234567890123456789 side-band-64k\n0009done\n",
            b"0074want 0123456789012345678901234567890123456781 multi_ack_detailed side-band-64k thin-pack agent=gixp include-tag\n0032want 0123456789012345678901234567890123456782\n0032want 0123456789012345678901234567890123456783\n0035shallow 0123456789012345678901234567890123456789\n000ddeepen 3\n0013deepen-since 5\n000dfilter x\n00000032have 0123456789012345678901234567890123456789\n0040want 0123456789012345678901234567890123456789 side-band-64k\n0009done\n",
        ),
        // later requests
        (
            [true, true, true, true, true],
            b"0032have 0123456789012345678901234567890123456789\n0009done\n",
            b"0032have 0123456789012345678901234567890123456789\n0009done\n",
        ),
        // the first message of git://
        (
            [true, true, true, true, true],
            b"0022git-upload-pack /x\0host=want \0",
            b"0022git-upload-pack /x\0host=want \0",
        ),
        // version 2
        (
            NONE,
            b"0012command=fetch\n0001000ddeepen 1\n0032want 0123456789012345678901234567890123456781\n0000",
            b"0012command=fetch\n0001000ddeepen 1\n0032want 0123456789012345678901234567890123456781\n0000",
        ),
        // no packet lines
        ([true, true, true, true, true], b"zzzzwant ", b"zzzzwant "),
    ];
    for (missing, given, wanted) in cases {
        let sent = sent_request(rt.alloc(), missing_of(missing), given)?;
        assert_eq!(rt; sent.as_slice(), wanted);
    }
    Ok(())
}

// A writer that fails.
#[derive(Drop)]
struct Closed;

impl Write for Closed {
    fn write(&mut self, _buf: &[u8]) -> io::Result<usize> {
        Err(io::Error::from(ErrorKind::BrokenPipe))
    }

    fn flush(&mut self) -> io::Result<()> {
        Ok(())
    }
}

#[test]
fn reports_a_failed_write(rt: HostRuntime) -> Result<(), Fail> {
    let mut requests = HeldRequests::new(rt.alloc(), Closed);
    requests.hold(b"0000")?;
    match requests.send(missing_of(NONE)) {
        Ok(()) => return Err(Fail::new("a failed write was not reported")),
        Err(e) => assert_eq!(rt; e.kind(), ErrorKind::BrokenPipe),
    }
    Ok(())
}
