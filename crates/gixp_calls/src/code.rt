//! The number of each result.
ghost use Rattle.std.specs.Prelude.{◌≡◌, ◌<◌};
ghost use Rattle.gixp_calls.specs.Codes.{packet_code, line_code, refs_code, advertised_line_code, advertised_code, spec_code};
ghost use Rattle.gixp_calls.specs.EngineCodes.{cut_or, client_code, ref_code, list_code, answer_code, handshake_code, map_code, fetch_code, engine_code};

use gixp_capabilities::client;
use gixp_engine::{EngineError, Left};
use gixp_fetch::error::Error as FetchError;
use gixp_handshake::handshake;
use gixp_packetline::PacketError;
use gixp_records::{
    AdvertisedLineRefused, AdvertisedRefused, LineRefused, PacketRefused, RefsRefused,
};
use gixp_refmap::{ls_refs, refmap};
use gixp_refs::handshake::refs;
use gixp_refspec::parse;
use gixp_response::fetch::response;
use std::alloc::AllocError;
use std::io::ErrorKind;

/// Success, and everything was read.
pub(crate) const OK: u32 = 0;
/// Success, and the next call continues.
pub(crate) const MORE: u32 = 1;
/// A buffer is too small, and the required size was written.
pub(crate) const NO_ROOM: u32 = 2;
/// An offset or a length doesn't match the bytes.
pub(crate) const BAD_PLACE: u32 = 3;

/// An allocation failed.
pub(crate) const NO_MEMORY: u32 = 4;
// The bytes end too early.
const INCOMPLETE: u32 = 10;
/// Two mappings have one local name.
pub(crate) const CONFLICT: u32 = 51;
/// The server sent an error.
pub(crate) const SERVER: u32 = 15;

pub(crate) fn packet_code(e: PacketRefused) -> u32
    ensures code { result ≡ packet_code e }
    ensures high { 2 < result }
{
    match e {
        PacketRefused::Incomplete => INCOMPLETE,
        PacketRefused::Malformed(PacketError::HexDecode) => 11,
        PacketRefused::Malformed(PacketError::DataLengthLimitExceeded) => 12,
        PacketRefused::Malformed(PacketError::DataIsEmpty) => 13,
        PacketRefused::Malformed(PacketError::InvalidLineLength) => 14,
        PacketRefused::Server(_) => 15,
        PacketRefused::Unexpected => 16,
        PacketRefused::UnknownBand(_) => 17,
    }
}

fn line_code(e: LineRefused) -> u32
    ensures { result ≡ line_code e }
{
    match e {
        LineRefused::Id => 20,
        LineRefused::Malformed => 21,
        LineRefused::UnknownAttribute => 22,
        LineRefused::Unborn => 23,
    }
}

pub(crate) fn refs_code(e: RefsRefused) -> u32
    ensures { result ≡ refs_code e }
{
    match e {
        RefsRefused::Packet(e) => packet_code(e),
        RefsRefused::Line(e) => line_code(e),
    }
}

fn advertised_line_code(e: AdvertisedLineRefused) -> u32
    ensures { result ≡ advertised_line_code e }
{
    match e {
        AdvertisedLineRefused::Id => 20,
        AdvertisedLineRefused::Malformed => 21,
        AdvertisedLineRefused::Peeled => 24,
        AdvertisedLineRefused::Symref => 25,
    }
}

pub(crate) fn advertised_code(e: AdvertisedRefused) -> u32
    ensures { result ≡ advertised_code e }
{
    match e {
        AdvertisedRefused::Packet(e) => packet_code(e),
        AdvertisedRefused::Line(e) => advertised_line_code(e),
        AdvertisedRefused::NoCapabilities => 46,
        AdvertisedRefused::VersionTwo => 47,
        AdvertisedRefused::UnknownVersion => 48,
        AdvertisedRefused::Memory => NO_MEMORY,
    }
}

pub(crate) fn spec_code(e: &parse::Error) -> u32
    ensures code { result ≡ spec_code e.now }
    ensures high { 2 < result }
{
    match e {
        parse::Error::NegativeWithDestination => 32,
        parse::Error::NegativeObjectHash => 33,
        parse::Error::NegativePartialName => 34,
        parse::Error::PatternUnbalanced => 35,
        parse::Error::PatternUnsupported => 36,
        parse::Error::InvalidName => 37,
    }
}

// The number of a failed read. A premature end of the bytes always has the same number.
fn cut_or(kind: ErrorKind, code: u32) -> u32
    ensures code { result ≡ cut_or kind code }
    ensures high { 2 < code → 2 < result }
{
    match kind {
        ErrorKind::UnexpectedEof => INCOMPLETE,
        _ => code,
    }
}

fn client_code(e: &client::Error, code: u32) -> u32
    ensures code { result ≡ client_code e.now code }
    ensures high { 2 < code → 2 < result }
{
    match e {
        client::Error::Io(kind) => cut_or(*kind, code),
        _ => code,
    }
}

// The number of an error of the reader of refs.
fn ref_code(e: &refs::parse::Error, code: u32) -> u32
    ensures code { result ≡ ref_code e.now code }
    ensures high { 2 < code → 2 < result }
{
    match e {
        refs::parse::Error::Io(kind) => cut_or(*kind, code),
        _ => code,
    }
}

// The number of an error of `ls-refs`.
fn list_code(e: &ls_refs::Error) -> u32
    ensures code { result ≡ list_code e.now }
    ensures high { 2 < result }
{
    match e {
        ls_refs::Error::Io(kind) => cut_or(*kind, 52),
        ls_refs::Error::Transport(e) => client_code(e, 52),
        ls_refs::Error::Parse(e) => ref_code(e, 52),
        _ => 52,
    }
}

fn answer_code(e: &response::Error) -> u32
    ensures code { result ≡ answer_code e.now }
    ensures high { 2 < result }
{
    match e {
        response::Error::Io(kind) => cut_or(*kind, 60),
        response::Error::Transport(e) => client_code(e, 60),
        _ => 60,
    }
}

fn handshake_code(e: &handshake::Error) -> u32
    ensures code { result ≡ handshake_code e.now }
    ensures high { 2 < result }
{
    match e {
        handshake::Error::Credentials(_) => 40,
        handshake::Error::EmptyCredentials => 41,
        handshake::Error::InvalidCredentials { .. } => 42,
        handshake::Error::Transport(e) => client_code(e, 43),
        handshake::Error::TransportProtocolPolicyViolation { .. } => 44,
        handshake::Error::ParseRefs(e) => ref_code(e, 45),
        handshake::Error::Memory => NO_MEMORY,
    }
}

// The number of an error of a ref map.
fn map_code(e: &refmap::init::Error) -> u32
    ensures code { result ≡ map_code e.now }
    ensures high { 2 < result }
{
    match e {
        refmap::init::Error::UnknownObjectFormat { .. } => 50,
        refmap::init::Error::MappingValidation(_) => CONFLICT,
        refmap::init::Error::ListRefs(e) => list_code(e),
        refmap::init::Error::Memory => NO_MEMORY,
    }
}

fn fetch_code(e: &FetchError<AllocError, Left>) -> u32
    ensures code { result ≡ fetch_code e.now }
    ensures high { 2 < result }
{
    match e {
        FetchError::FetchResponse(e) => answer_code(e),
        FetchError::Negotiate(_) => 61,
        FetchError::Client(e) => client_code(e, 62),
        FetchError::MissingServerFeature { .. } => 63,
        FetchError::WriteShallowFile(_) => 64,
        FetchError::ReadShallowFile(_) => 65,
        FetchError::LockShallowFile(_) => 66,
        FetchError::RejectShallowRemote => 67,
        FetchError::ConsumePack(_) => 68,
        FetchError::ReadRemainingBytes(_) => 69,
        FetchError::Memory => NO_MEMORY,
    }
}

pub(crate) fn engine_code(e: &EngineError) -> u32
    ensures code { result ≡ engine_code e.now }
    ensures high { 2 < result }
{
    match e {
        EngineError::Lengths => BAD_PLACE,
        EngineError::Memory => NO_MEMORY,
        EngineError::NoAnswer => 30,
        EngineError::TooManyAnswers => 31,
        EngineError::Spec(e) => spec_code(e),
        EngineError::NoFilters => 70,
        EngineError::Filter => 80,
        EngineError::Name => 81,
        EngineError::Limit => 82,
        EngineError::Handshake(e) => handshake_code(e),
        EngineError::Refs(e) => map_code(e),
        EngineError::UnterminatedRefs => 53,
        EngineError::UnsupportedRefName => 21,
        EngineError::Fetch(e) => fetch_code(e),
        EngineError::Pack(e) => packet_code(*e),
    }
}
