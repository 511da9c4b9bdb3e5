//! Sideband readers: a caller's interrupt flag, and the next line of a transport that was returned.
use gixp_doubles::Device;
use gixp_packetline::{ExtendedBufRead, LineReader};
use gixp_sidebands::{BandText, InterruptFlag, NeverInterrupt, WithSidebands};
use std::alloc::{AllocError, Global};
use std::cell::Cell;
use std::io;
use std::io::{BufRead, ErrorKind, Read};
use std::test::Fail;

// Records each text, as `[2:text]` or `[3:text]`.
#[derive(Drop)]
struct Notes<'a> {
    reported_text: &'a mut String,
}

impl BandText for Notes<'_> {
    ghost receives = { λ old is_error text new. Unit {0} };

    ghost spares = { λ old is_error text new. Unit {0} };

    fn band_text(&mut self, is_error: bool, text: &[u8]) -> Result<(), AllocError> {
        self.reported_text
            .push_str(if is_error { "[3:" } else { "[2:" })?;
        self.reported_text
            .push_str(str::from_utf8(text).unwrap_or("?"))?;
        self.reported_text.push_str("]")
    }
}

const STREAM: &[u8] = b"0006\x01P0005\x010007\x02hi0006\x01A0000";

// The size of a read, or the kind of its error.
fn size_read<R: Read>(reader: &mut R) -> Result<usize, ErrorKind> {
    let mut room = [0u8; 8];
    reader.read(&mut room).map_err(|e| e.kind())
}

// Whether the interrupt is set, and the results of two reads after that call.
fn two_reads<T: ExtendedBufRead>(
    lines: &mut T,
    flag: &Cell<bool>,
    texts: &mut String,
) -> (bool, [Result<usize, ErrorKind>; 2]) {
    let mut flag = InterruptFlag::new(flag);
    let mut reader = WithSidebands::new(
        lines,
        Notes {
            reported_text: texts,
        },
        &mut flag,
    );
    let interrupted = reader.interrupted();
    (
        interrupted,
        [size_read(&mut reader), size_read(&mut reader)],
    )
}

// Whether the interrupt has this value, the second read returns this, and the text was reported.
fn heeds_the_flag(
    alloc: Global,
    interrupted: bool,
    second: Result<usize, ErrorKind>,
) -> Result<bool, AllocError> {
    let flag = Cell::new(interrupted);
    let mut device = Device::new(STREAM, 1);
    let mut lines = LineReader::new(alloc, &mut device)?;
    let mut texts = String::new(alloc);
    let got = two_reads(&mut lines, &flag, &mut texts);
    if let (_, [Ok(_), Err(ErrorKind::OutOfMemory)]) = got {
        return Err(AllocError);
    }
    Ok(got == (interrupted, [Ok(1), second]) && texts.as_str() == "[2:hi]")
}

#[test]
fn asks_the_flag_of_a_caller(rt: HostRuntime) -> Result<(), Fail> {
    assert!(rt; heeds_the_flag(rt.alloc(), true, Err(ErrorKind::Other))?);
    assert!(rt; heeds_the_flag(rt.alloc(), false, Ok(1))?);
    Ok(())
}

// Peeks first if `peeks` is true, then reads `size` bytes, at most one.
fn read_some<R: BufRead>(reader: &mut R, size: usize, peeks: bool) -> io::Result<()> {
    if peeks {
        let _ = reader.fill_buf()?;
    }
    let mut room = [0u8; 1];
    let _ = reader.read(&mut room[..size.min(1)])?;
    Ok(())
}

// Whether this is the next line of the transport that is returned after such a read.
fn leaves<T: ExtendedBufRead>(
    lines: &mut T,
    texts: &mut String,
    (size, peeks): (usize, bool),
    want: &[u8],
) -> Result<bool, Fail> {
    let mut never = NeverInterrupt;
    let mut reader = WithSidebands::new(
        lines,
        Notes {
            reported_text: texts,
        },
        &mut never,
    );
    read_some(&mut reader, size, peeks)?;
    Ok(reader.into_transport().readline()? == Some(want))
}

fn leaves_line(alloc: Global, read: (usize, bool), want: &[u8]) -> Result<bool, Fail> {
    let mut device = Device::new(b"0007\x01PA0006\x01C0000", 1);
    let mut lines = LineReader::new(alloc, &mut device)?;
    let mut texts = String::new(alloc);
    leaves(&mut lines, &mut texts, read, want)
}

#[test]
fn gives_the_transport_back(rt: HostRuntime) -> Result<(), Fail> {
    for (read, want) in [
        ((0, false), b"\x01PA".as_slice()),
        ((0, true), b"\x01PA"),
        ((1, true), b"\x01C"),
    ] {
        assert!(rt; leaves_line(rt.alloc(), read, want)?);
    }
    Ok(())
}
