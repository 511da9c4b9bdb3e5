//! Responses without `multi_ack_detailed` and without a side-band that arrive in pieces and are read in pieces of any size.
use crate::pieces::{PieceReader, read_until};
use gixp_plain_responses::PlainResponses;
use std::alloc::{AllocError, Global};
use std::io::Read;
use std::process::Abort;
use std::test::Fail;

// What the reader passes on, up to `count` bytes. Each read requests at most `room` bytes.
fn passed_on(
    alloc: Global,
    pieces: &mut PieceReader<'_>,
    room: usize,
    count: usize,
) -> Result<Vec<u8>, AllocError> {
    let mut reader = PlainResponses::new(alloc, pieces)?;
    let (found, _is_refused) = read_until(alloc, &mut reader, room, count)?;
    Ok(found)
}

fn expect<R: Abort + AllocGlobal>(rt: &R, given: &[u8], wanted: &[u8]) -> Result<(), AllocError> {
    for most in [1, 2, 3, 7, 80] {
        for room in [1, 4, 16] {
            for fails in [false, true] {
                let mut pieces = PieceReader::new(given, most, fails);
                let received = passed_on(rt.alloc(), &mut pieces, room, 300)?;
                assert_eq!(rt; received.as_slice(), wanted);
            }
        }
    }
    Ok(())
}

#[test]
fn names_common_commits_in_detail(rt: HostRuntime) -> Result<(), Fail> {
    let cases: [(&[u8], &[u8]); 4] = [
        // with and without an LF
        (
            b"003aACK 0123456789012345678901234567890123456789 continue\n0008NAK\n",
            b"0038ACK 0123456789012345678901234567890123456789 common\n0008NAK\n",
        ),
        (
            b"0039ACK 0123456789012345678901234567890123456789 continue",
            b"0038ACK 0123456789012345678901234567890123456789 common\n",
        ),
        // digits of the upper case
        (
            b"003AACK abcdef6789012345678901234567890123456789 continue\n",
            b"0038ACK abcdef6789012345678901234567890123456789 common\n",
        ),
        // the last acknowledgement, and a pack
        (
            b"003aACK 0123456789012345678901234567890123456789 continue\n0031ACK 0123456789012345678901234567890123456789\nPACKab",
            b"0038ACK 0123456789012345678901234567890123456789 common\n0031ACK 0123456789012345678901234567890123456789\n\
              000b\x01PACKab0000",
        ),
    ];
    for (given, wanted) in cases {
        expect(&rt, given, wanted)?;
    }
    Ok(())
}

#[test]
fn leaves_other_lines(rt: HostRuntime) -> Result<(), Fail> {
    let cases: [&[u8]; 11] = [
        b"",
        b"0000",
        b"00010002",
        b"0006a\n0008NAK\n0006\x01P0000",
        b"0038ACK 0123456789012345678901234567890123456789 common\n",
        b"0037ACK 0123456789012345678901234567890123456789 ready\n",
        // lines of the same size
        b"003aACK 0123456789012345678901234567890123456789 continua\n",
        b"0039ACK 0123456789012345678901234567890123456789 continua",
        b"003aACL 0123456789012345678901234567890123456789 continue\n",
        // less than a packet line
        b"003aACK 0123456789012345678901234567890123456789 continue",
        b"PAC",
    ];
    for given in cases {
        expect(&rt, given, given)?;
    }
    // four bytes that begin no packet line
    for given in [
        b"zzzz0005x".as_slice(),
        b"00040005x",
        b"00030005x",
        b"fff10005x",
        b"pack0005x",
    ] {
        expect(&rt, given, given)?;
    }
    Ok(())
}

#[test]
fn puts_a_pack_into_packets(rt: HostRuntime) -> Result<(), Fail> {
    let cases: [(&[u8], &[u8]); 3] = [
        (b"PACK", b"0009\x01PACK0000"),
        (b"0008NAK\nPACK0000", b"0008NAK\n000d\x01PACK00000000"),
        (b"0000PACK\x000005x", b"0000000f\x01PACK\x000005x0000"),
    ];
    for (given, wanted) in cases {
        expect(&rt, given, wanted)?;
    }
    Ok(())
}

#[test]
fn fills_the_packets_of_a_pack(rt: HostRuntime) -> Result<(), Fail> {
    // the bytes of a pack, and the size of its last packet
    for (count, last) in [(65514, 65519), (65515, 65520), (65516, 6), (131030, 65520)] {
        let mut pack = vec![in rt.alloc(); b'x'; count]?;
        pack[..4].copy_from_slice(b"PACK");
        let mut found = Vec::new(rt.alloc());
        let mut reader = PlainResponses::new(rt.alloc(), pack.as_slice())?;
        reader.read_to_end(&mut found)?;
        let packets = count.div_ceil(65515);
        assert_eq!(rt; found.len(), count + 5 * packets + 4);
        assert_eq!(rt; found.ends_with(b"x0000"), true);
        let begins = found.len() - 4 - last;
        let digits: [u8; 4] = gixp_packetline::digits::encode_number(last);
        assert_eq!(rt; found[begins..].starts_with(&digits), true);
        assert_eq!(rt; found[begins + 4], 1);
    }
    Ok(())
}

#[test]
fn reads_no_more_than_the_next_line(rt: HostRuntime) -> Result<(), Fail> {
    let stream: &[u8] =
        b"0005x003aACK 0123456789012345678901234567890123456789 continue\n0008NAK\n0005y";
    // the number of bytes passed on, and the number of bytes read by then
    let cases = [(5, 5), (61, 63), (69, 71)];
    for (passed, read) in cases {
        for most in 1..14 {
            for room in 1..14 {
                let mut pieces = PieceReader::new(stream, most, false);
                let received = passed_on(rt.alloc(), &mut pieces, room, passed)?;
                assert_eq!(rt; received.len(), passed);
                assert_eq!(rt; stream.len().saturating_sub(pieces.bytes.len()), read);
            }
        }
    }
    Ok(())
}
