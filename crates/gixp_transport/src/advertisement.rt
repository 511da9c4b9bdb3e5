//! The server's advertisement.
ghost use Rattle.std.specs.Prelude.{◌≡◌, ◌⊎◌, None, [], true};
ghost use Rattle.gixp_packetline.specs.declared.protocol.Protocol.TheVariants.{V0, V2};
ghost use Rattle.gixp_capabilities.specs.declared.client.Error.TheVariants.{Memory};
ghost use Rattle.gixp_capabilities.specs.Client.{client_refusal, unsupported_version};
ghost use Rattle.gixp_packetline.specs.Reading.{TakesLine};
ghost use Rattle.gixp_packetline.specs.Packets.{packets_reading, is_peeked};
ghost use Rattle.gixp_transport.specs.Named.{named_value};
ghost use Rattle.gixp_transport.specs.CapabilityAdvertisement.{version_named, trimmed, advertisement, from_ref_line, from_capability_lines, TakesNone, TakesAny, TakesFirst, Advertises};

use crate::service::SetServiceResponse;
use bstr::{BString, ByteSlice};
use gixp_capabilities::Capabilities;
use gixp_capabilities::client::Error;
use gixp_packetline::packets::Packets;
use gixp_packetline::{ExtendedBufRead, Protocol};
use std::alloc::Global;
use std::io::Read;

/// The version that the first line names.
#[derive(Clone, Copy)]
pub(crate) enum Named {
    One,
    Two,
    Another,
    Unnamed,
}

fn version_named(line: &[u8]) -> Named
    ensures { named_value line.now result ≡ version_named line.now }
{
    let text = line.trim_end();
    if text == b"version 1".as_slice() {
        return Named::One;
    }
    if text == b"version 2".as_slice() {
        return Named::Two;
    }
    if line.starts_with(b"version ") {
        return Named::Another;
    }
    Named::Unnamed
}

// The error for a line that names an unknown version.
fn unsupported(alloc: Global, line: &[u8]) -> Error
    ensures { (client_refusal result ≡ unsupported_version (trimmed line.now)) ⊎ (result ≡ Memory) }
{
    match BString::from_slice(alloc, line.trim_end()) {
        Ok(text) => Error::UnsupportedProtocolVersion(text),
        Err(_) => Error::Memory,
    }
}

// The advertisement for a flush packet in place of the first ref line.
fn empty_advertisement(alloc: Global, version: Protocol) -> SetServiceResponse
    ensures { result ≡ record { actual_protocol = version; capabilities = []; has_refs = true } }
{
    SetServiceResponse {
        actual_protocol: version,
        capabilities: Capabilities::empty(alloc),
        has_refs: true,
    }
}

/// Reads the advertisement: the line that names a version, and the capabilities. Under versions 0 and 1 the first ref
/// line is then still to come, cut before its NUL.
pub(crate) fn advertisement<R: Read>(
    packets: &mut Packets<R>,
    alloc: Global,
) -> Result<SetServiceResponse, Error>
    ensures { Advertises advertisement TakesFirst (packets_reading R.remaining packets.old)
        (packets_reading R.remaining packets.new) result }
{
    packets.reset(Protocol::V0);
    match packets.peek_line() {
        Ok(true) => by_first_line(packets, alloc),
        Ok(false) => Ok(empty_advertisement(alloc, Protocol::V0)),
        Err(e) => Err(Error::from(e)),
    }
}

// Reads the advertisement from the first line on, which was peeked at.
fn by_first_line<R: Read>(
    packets: &mut Packets<R>,
    alloc: Global,
) -> Result<SetServiceResponse, Error>
    requires version { packets.old.version ≡ V0 }
    requires peeked { is_peeked packets.old.place ≡ true }
    ensures { Advertises advertisement TakesFirst (packets_reading R.remaining packets.old)
        (packets_reading R.remaining packets.new) result }
{
    match version_named(packets.line()) {
        Named::Unnamed => cut_ref_line(packets, alloc, Protocol::V0),
        Named::One => {
            take_peeked(packets);
            packets.reset(Protocol::V1);
            ref_line(packets, alloc, Protocol::V1)
        }
        Named::Two => {
            take_peeked(packets);
            packets.reset(Protocol::V2);
            capability_lines(packets, alloc)
        }
        Named::Another => Err(unsupported(alloc, packets.line())),
    }
}

fn take_peeked<R: Read>(packets: &mut Packets<R>)
    requires { is_peeked packets.old.place ≡ true }
    ensures { TakesLine (packets_reading R.remaining packets.old) (packets_reading R.remaining packets.new) }
{
    let _ = packets.next_line();
}

// Reads the first ref line of version 0 or 1.
fn ref_line<R: Read>(
    packets: &mut Packets<R>,
    alloc: Global,
    version: Protocol,
) -> Result<SetServiceResponse, Error>
    requires version { packets.old.version ≡ version }
    requires running { (packets_reading R.remaining packets.old).stopped ≡ None }
    ensures { Advertises (from_ref_line version) (TakesNone version) (packets_reading R.remaining packets.old)
        (packets_reading R.remaining packets.new) result }
{
    match packets.peek_line() {
        Ok(true) => cut_ref_line(packets, alloc, version),
        Ok(false) => Ok(empty_advertisement(alloc, version)),
        Err(e) => Err(Error::from(e)),
    }
}

// Cuts the first ref line, which was peeked at, before its NUL.
fn cut_ref_line<R: Read>(
    packets: &mut Packets<R>,
    alloc: Global,
    version: Protocol,
) -> Result<SetServiceResponse, Error>
    requires version { packets.old.version ≡ version }
    requires peeked { is_peeked packets.old.place ≡ true }
    ensures { Advertises (from_ref_line version) (TakesNone version) (packets_reading R.remaining packets.old)
        (packets_reading R.remaining packets.new) result }
{
    match Capabilities::from_bytes(alloc, packets.line()) {
        Ok((capabilities, place)) => {
            packets.shorten_line(place);
            Ok(SetServiceResponse {
                actual_protocol: version,
                capabilities,
                has_refs: true,
            })
        }
        Err(e) => Err(e),
    }
}

// Reads the capability lines of version 2, up to a flush or delimiter packet.
fn capability_lines<R: Read>(
    packets: &mut Packets<R>,
    alloc: Global,
) -> Result<SetServiceResponse, Error>
    requires version { packets.old.version ≡ V2 }
    requires running { (packets_reading R.remaining packets.old).stopped ≡ None }
    ensures { Advertises from_capability_lines TakesAny (packets_reading R.remaining packets.old)
        (packets_reading R.remaining packets.new) result }
{
    let mut capabilities = Capabilities::empty(alloc);
    loop {
        match packets.next_line() {
            Ok(true) => {}
            Ok(false) => {
                return Ok(SetServiceResponse {
                    actual_protocol: Protocol::V2,
                    capabilities,
                    has_refs: false,
                });
            }
            Err(e) => return Err(Error::from(e)),
        }
        match capabilities.push_line(packets.line()) {
            Ok(()) => {}
            Err(_) => return Err(Error::Memory),
        }
    }
}
