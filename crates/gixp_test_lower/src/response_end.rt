//! Responses that arrive in pieces and are read in pieces of any size.
use crate::pieces::{PieceReader, read_until};
use gixp_response_end::Answers;
use std::alloc::{AllocError, Global};
use std::test::Fail;

// What the reader passes on, up to `count` bytes. Each read requests at most `room` bytes.
fn passed_on(
    alloc: Global,
    pieces: &mut PieceReader<'_>,
    room: usize,
    count: usize,
) -> Result<Vec<u8>, AllocError> {
    let (found, _is_refused) = read_until(alloc, &mut Answers::new(pieces), room, count)?;
    Ok(found)
}

#[test]
fn passes_on_whole_answers_however_cut(rt: HostRuntime) -> Result<(), Fail> {
    let cases: [(&[u8], &[u8]); 28] = [
        // an advertisement, and responses
        (b"", b""),
        (b"0000", b"0000"),
        (b"0006a\n0000", b"0006a\n0000"),
        (b"0006a\n00000006b\n00000002", b"0006a\n00000006b\n0000"),
        (
            b"00000006b\n00000002000000020006c\n00000002",
            b"00000006b\n000000000006c\n0000",
        ),
        (
            b"00000006b\n00010006c\n00000002",
            b"00000006b\n00010006c\n0000",
        ),
        (
            b"000a0002000000000c0000000200000002",
            b"000a0002000000000c000000020000",
        ),
        // a response without its flush packet, and more bytes after it
        (b"00000002", b"0000"),
        (b"000000020006b\n00000002", b"0000"),
        (b"00000006b\n000200000002", b"00000006b\n"),
        (b"00000006b\n000100020006c\n00000002", b"00000006b\n0001"),
        // a flush packet without a response-end packet after it
        (b"00000006b\n0000", b"00000006b\n"),
        (b"00000006b\n0000000", b"00000006b\n"),
        (b"0000000002", b"0000"),
        (b"00000000020006b\n00000002", b"0000"),
        (b"000000000006b\n00000002", b"0000"),
        (b"0000000000000002", b"0000"),
        (b"00000006b\n000000010002", b"00000006b\n"),
        (b"00000006b\n0000zzzz0002", b"00000006b\n"),
        // an advertisement that a response-end packet ends
        (b"0002", b""),
        (b"0006a\n0002000000000002", b"0006a\n"),
        // less than a packet line
        (b"0006a\n00", b"0006a\n00"),
        (b"000000", b"000000"),
        (b"00090002", b"00090002"),
        (b"000000090002", b"000000090002"),
        // four bytes that begin no packet line
        (b"zzzz00000002", b"zzzz00000002"),
        (b"0000000zzzzz0002", b"0000000zzzzz0002"),
        (b"00040000000300000002", b"0004000000030000"),
    ];
    for (given, wanted) in cases {
        for most in 1..14 {
            for room in 1..14 {
                for fails in [false, true] {
                    let mut pieces = PieceReader::new(given, most, fails);
                    let found = passed_on(rt.alloc(), &mut pieces, room, 64)?;
                    assert_eq!(rt; found.as_slice(), wanted);
                }
            }
        }
    }
    Ok(())
}

#[test]
fn reads_no_more_than_comes_next(rt: HostRuntime) -> Result<(), Fail> {
    let stream: &[u8] = b"0006a\n00000006b\n000000020006c\n00000002";
    // the number of bytes passed on, and the number of bytes read by then
    let cases = [(6, 6), (10, 10), (16, 16), (20, 24), (26, 30), (30, 38)];
    for (passed, read) in cases {
        for most in 1..14 {
            for room in 1..14 {
                let mut pieces = PieceReader::new(stream, most, false);
                let found = passed_on(rt.alloc(), &mut pieces, room, passed)?;
                assert_eq!(rt; found.len(), passed);
                assert_eq!(rt; stream.len().saturating_sub(pieces.bytes.len()), read);
            }
        }
    }
    Ok(())
}
