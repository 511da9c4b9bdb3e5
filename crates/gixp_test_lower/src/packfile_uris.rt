//! Sections `packfile-uris` that arrive in pieces and are read in pieces of any size.
use crate::pieces::{PieceReader, read_until};
use gixp_packfile_uris::{PackfileUris, UriSink};
use std::alloc::{AllocError, Global};
use std::process::Abort;
use std::test::Fail;

// The lines received, each with an LF.
#[derive(Drop)]
struct Lines<'a>(&'a mut Vec<u8>);

impl UriSink for Lines<'_> {
    fn take(&mut self, line: &[u8]) {
        let _ = self.0.extend_from_slice(line);
        let _ = self.0.push(b'\n');
    }
}

// The bytes passed on, the lines of the sink, and whether a line is invalid.
#[derive(Drop)]
struct Received {
    passed: Vec<u8>,
    lines: Vec<u8>,
    is_refused: bool,
}

fn receive(
    alloc: Global,
    pieces: &mut PieceReader<'_>,
    room: usize,
    count: usize,
) -> Result<Received, AllocError> {
    let mut lines = Vec::new(alloc);
    let (passed, is_refused) = {
        let mut reader = PackfileUris::new(alloc, pieces, Lines(&mut lines))?;
        read_until(alloc, &mut reader, room, count)?
    };
    Ok(Received {
        passed,
        lines,
        is_refused,
    })
}

// A stream, the bytes passed on, and the lines of the sink.
type Case<'a> = (&'a [u8], &'a [u8], &'a [u8]);

fn expect<R: Abort + AllocGlobal>(
    rt: &R,
    case: Case<'_>,
    is_refused: bool,
) -> Result<(), AllocError> {
    let (given, wanted, lines) = case;
    for most in [1, 2, 3, 7, 80] {
        for room in [1, 4, 16] {
            for fails in [false, true] {
                let mut pieces = PieceReader::new(given, most, fails);
                let received = receive(rt.alloc(), &mut pieces, room, 300)?;
                assert_eq!(rt; received.passed.as_slice(), wanted);
                assert_eq!(rt; received.lines.as_slice(), lines);
                assert_eq!(rt; received.is_refused, is_refused);
            }
        }
    }
    Ok(())
}

#[test]
fn takes_the_section_out(rt: HostRuntime) -> Result<(), Fail> {
    let cases: [Case<'_>; 5] = [
        // no section
        (b"000cpackfile0005x0000", b"000cpackfile0005x0000", b""),
        // a section before the pack, with and without LFs
        (
            b"0012packfile-uris\n00370123456789012345678901234567890123456789 http://a/b0001000dpackfile\n0005x0000",
            b"000dpackfile\n0005x0000",
            b"0123456789012345678901234567890123456789 http://a/b\n",
        ),
        (
            b"0011packfile-uris00380123456789012345678901234567890123456789 http://a/b\n0001000cpackfile0005x0000",
            b"000cpackfile0005x0000",
            b"0123456789012345678901234567890123456789 http://a/b\n",
        ),
        // after another section, on bands, with messages before it and in it
        (
            b"0005s0001\
              0006\x02a0013\x01packfile-uris\n0006\x02b0038\x010123456789012345678901234567890123456789 http://a/b0001000dpackfile\n0000",
            b"0005s00010006\x02a0006\x02b000dpackfile\n0000",
            b"0123456789012345678901234567890123456789 http://a/b\n",
        ),
        // a second section of the same response is passed on, one of the next response is removed
        (
            b"0011packfile-uris00010011packfile-uris000100000011packfile-uris00010005x",
            b"0011packfile-uris000100000005x",
            b"",
        ),
    ];
    for case in cases {
        expect(&rt, case, false)?;
    }
    Ok(())
}

#[test]
fn leaves_other_sections(rt: HostRuntime) -> Result<(), Fail> {
    let cases: [&[u8]; 4] = [
        // the header is not the first line of a section
        b"0005x0011packfile-uris0001",
        // another header
        b"0010packfile-uri00010012packfile-uris 0001",
        // less than a packet line
        b"0011packfile-ur",
        // four bytes that begin no packet line
        b"zzzz0011packfile-uris0001",
    ];
    for given in cases {
        expect(&rt, (given, given, b""), false)?;
    }
    Ok(())
}

#[test]
fn refuses_other_lines(rt: HostRuntime) -> Result<(), Fail> {
    let cases: [Case<'_>; 6] = [
        // not a URI line
        (b"0005x00010011packfile-uris0005y0001", b"0005x0001", b""),
        // a digit too few, and a byte that is not a digit
        (
            b"0011packfile-uris0036123456789012345678901234567890123456789 http://a/b0001",
            b"",
            b"",
        ),
        (
            b"0011packfile-uris0037g123456789012345678901234567890123456789 http://a/b0001",
            b"",
            b"",
        ),
        // a blank, and a control character
        (
            b"0011packfile-uris00370123456789012345678901234567890123456789 http://a b0001",
            b"",
            b"",
        ),
        (
            b"0011packfile-uris00370123456789012345678901234567890123456789 http://a\x1bb0001",
            b"",
            b"",
        ),
        // a flush packet in place of the delimiter packet
        (
            b"0011packfile-uris00370123456789012345678901234567890123456789 http://a/b0000",
            b"",
            b"0123456789012345678901234567890123456789 http://a/b\n",
        ),
    ];
    for case in cases {
        expect(&rt, case, true)?;
    }
    Ok(())
}

#[test]
fn reads_no_more_of_a_section_than_comes_next(rt: HostRuntime) -> Result<(), Fail> {
    let stream: &[u8] = b"0005x00010011packfile-uris00010006ab0000";
    // the number of bytes passed on, and the number of bytes read by then
    let cases = [(5, 5), (9, 9), (15, 36), (19, 40)];
    for (passed, read) in cases {
        for most in 1..14 {
            for room in 1..14 {
                let mut pieces = PieceReader::new(stream, most, false);
                let received = receive(rt.alloc(), &mut pieces, room, passed)?;
                assert_eq!(rt; received.passed.len(), passed);
                assert_eq!(rt; stream.len().saturating_sub(pieces.bytes.len()), read);
            }
        }
    }
    Ok(())
}
