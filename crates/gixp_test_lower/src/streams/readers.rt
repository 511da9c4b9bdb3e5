//! Line readers over failing devices.
use gixp_doubles::Device;
use gixp_packetline::read::ExtendedBufRead;
use gixp_packetline::{LineReader, Protocol};
use std::alloc::{AllocError, Global};
use std::io::ErrorKind;
use std::test::Fail;

// The result of a call of a reader: the length of a line, `|` for a flush or delimiter packet, or an error.
fn word<R: ExtendedBufRead>(alloc: Global, reader: &mut R) -> Result<String, AllocError> {
    match reader.readline() {
        Ok(Some(line)) => format!(in alloc; "{} ", line.len()),
        Ok(None) => format!(in alloc; "| "),
        Err(e) => format!(in alloc; "{e:?} "),
    }
}

// The results of this many calls of a reader, separated by blanks.
pub(crate) fn read_all<R: ExtendedBufRead>(
    alloc: Global,
    reader: &mut R,
    calls: usize,
) -> Result<String, AllocError> {
    let mut reported_text = String::new(alloc);
    for _ in 0..calls {
        reported_text.push_str(word(alloc, reader)?.as_str())?;
    }
    Ok(reported_text)
}

fn reported_text(
    alloc: Global,
    mut device: Device<'_>,
    version: Protocol,
    calls: usize,
) -> Result<String, AllocError> {
    let mut reader = LineReader::new(alloc, &mut device)?;
    reader.reset(version);
    read_all(alloc, &mut reader, calls)
}

// A read that fails with `UnexpectedEof` ends the stream.
#[test]
fn takes_a_failure_of_that_kind_for_the_end(rt: HostRuntime) -> Result<(), Fail> {
    let device = Device::failing(b"0006a\n0000", 2, 3, ErrorKind::UnexpectedEof);
    let got = reported_text(rt.alloc(), device, Protocol::V2, 3)?;
    assert!(rt; got.as_str() == "2 Io(UnexpectedEof) Io(UnexpectedEof) ");
    Ok(())
}
