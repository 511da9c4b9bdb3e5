//! The start of an advertisement, up to its first ref line (gitprotocol-pack, "Reference Discovery" and "Extra Parameters").
ghost use Rattle.std.specs.Prelude.{◌≡◌, ◌≤◌, None, MatchResult, length};
ghost use Rattle.gixp_packetline.specs.Items.{is_stop};
ghost use Rattle.gixp_capabilities.specs.Capabilities.{capabilities_of_line};
ghost use Rattle.gixp_transport.specs.CapabilityAdvertisement.{version_named, from_ref_line, by_version, advertisement};
ghost use Rattle.gixp_records.specs.declared.advertised.refused.AdvertisedRefused.TheVariants.{NoCapabilities};
ghost use Rattle.gixp_records.specs.Span.{text_at, IsWithin};
ghost use Rattle.gixp_records.specs.Packets.{pieces_at, IsNextPacket};
ghost use Rattle.gixp_records.specs.RefsOpening.{named_as, HasCapabilities, IsOpened};

use crate::advertised::refused::AdvertisedRefused;
use crate::packets::{NextPacket, PacketRefused, next_packet, without_line_end};
use crate::span::{Span, cut_at, text_at};
use bstr::ByteSlice;
use gixp_packetline::{MessageKind, Protocol};

// The version that the first line names.
#[derive(Clone, Copy)]
pub(crate) enum NamedVersion {
    One,
    Two,
    Another,
    Unnamed,
}

// The start of the refs of an advertisement.
#[derive(Clone, Copy)]
pub(crate) struct RefsOpening {
    pub(crate) version: Protocol,
    // The offset of the first ref line.
    pub(crate) first: usize,
    // Its length without the capabilities.
    pub(crate) cut: usize,
    // The span of the capabilities.
    pub(crate) capabilities: Span,
}

#[derive(Clone, Copy)]
pub(crate) enum Opened {
    // A first ref line.
    Refs(RefsOpening),
    // A stop instead of a ref line, and the offset after it.
    Empty(usize),
}

fn named_version(line: &[u8]) -> NamedVersion
    ensures { result ≡ named_as (version_named line.now) }
{
    let text = line.trim_end();
    if text == b"version 1".as_slice() {
        return NamedVersion::One;
    }
    if text == b"version 2".as_slice() {
        return NamedVersion::Two;
    }
    if line.starts_with(b"version ") {
        return NamedVersion::Another;
    }
    NamedVersion::Unnamed
}

// Whether a packet is a stop under this version.
#[inline(always)]
pub(crate) fn is_stop(version: Protocol, kind: MessageKind) -> bool
    ensures { result ≡ is_stop version kind }
{
    match (kind, version) {
        (MessageKind::Flush, _) | (MessageKind::Delimiter, Protocol::V2) => true,
        _ => false,
    }
}

// Splits a first ref line at its capabilities.
fn cut_ref_line(
    bytes: &[u8],
    version: Protocol,
    first: usize,
    line: Span,
) -> Result<RefsOpening, AdvertisedRefused>
    requires { IsWithin bytes.now line }
    ensures { MatchResult result (HasCapabilities bytes.now (text_at bytes.now line) version first)
        (λ e. (e ≡ NoCapabilities) × (capabilities_of_line (text_at bytes.now line) ≡ None)) }
{
    let (front, following) = cut_at(bytes, line, 0);
    match following {
        Some(text) => Ok(RefsOpening {
            version,
            first,
            cut: front.len,
            capabilities: without_line_end(bytes, text),
        }),
        None => Err(AdvertisedRefused::NoCapabilities),
    }
}

// Reads the first ref line of version 0 or 1 at an offset.
fn open_ref_line(bytes: &[u8], version: Protocol, at: usize) -> Result<Opened, AdvertisedRefused>
    requires { at ≤ length bytes.now }
    ensures { IsOpened bytes.now (from_ref_line version (pieces_at bytes.now at)) result }
{
    match next_packet(bytes, at) {
        Ok(NextPacket::Line(line, _)) => match cut_ref_line(bytes, version, at, line) {
            Ok(opening) => Ok(Opened::Refs(opening)),
            Err(e) => Err(e),
        },
        Ok(NextPacket::Mark(kind, next)) => {
            if is_stop(version, kind) {
                Ok(Opened::Empty(next))
            } else {
                Err(AdvertisedRefused::Packet(PacketRefused::Unexpected))
            }
        }
        Err(e) => Err(AdvertisedRefused::Packet(e)),
    }
}

// Reads the start of an advertisement whose first line is this one.
fn open_first_line(bytes: &[u8], line: Span, next: usize) -> Result<Opened, AdvertisedRefused>
    requires line { IsWithin bytes.now line }
    requires next { next ≤ length bytes.now }
    ensures { IsOpened bytes.now
        (by_version (version_named (text_at bytes.now line)) (pieces_at bytes.now 0) (pieces_at bytes.now next)) result }
{
    match named_version(text_at(bytes, line)) {
        NamedVersion::One => open_ref_line(bytes, Protocol::V1, next),
        NamedVersion::Two => Err(AdvertisedRefused::VersionTwo),
        NamedVersion::Another => Err(AdvertisedRefused::UnknownVersion),
        NamedVersion::Unnamed => open_ref_line(bytes, Protocol::V0, 0),
    }
}

pub(crate) fn open_advertisement(bytes: &[u8]) -> Result<Opened, AdvertisedRefused>
    ensures { IsOpened bytes.now (advertisement (pieces_at bytes.now 0)) result }
{
    match next_packet(bytes, 0) {
        Ok(NextPacket::Line(line, next)) => open_first_line(bytes, line, next),
        Ok(NextPacket::Mark(kind, next)) => {
            if is_stop(Protocol::V0, kind) {
                Ok(Opened::Empty(next))
            } else {
                Err(AdvertisedRefused::Packet(PacketRefused::Unexpected))
            }
        }
        Err(e) => Err(AdvertisedRefused::Packet(e)),
    }
}
