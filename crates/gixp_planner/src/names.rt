//! The variants' names of each step's error.
ghost use Rattle.std.specs.Prelude.{◌≡◌};
ghost use Rattle.gixp_planner.specs.Refusal.{spec_name, handshake_name, map_name, fetch_name};

use gix_protocol::fetch::{self, refmap};
use gix_protocol::handshake;
use gix_protocol::refspec::parse;

pub(crate) fn spec_variant(e: &parse::Error) -> &'static str
    ensures { result.now ≡ spec_name e.now }
{
    match e {
        parse::Error::NegativeWithDestination => "NegativeWithDestination",
        parse::Error::NegativeObjectHash => "NegativeObjectHash",
        parse::Error::NegativePartialName => "NegativePartialName",
        parse::Error::PatternUnbalanced => "PatternUnbalanced",
        parse::Error::PatternUnsupported => "PatternUnsupported",
        parse::Error::InvalidName => "InvalidName",
    }
}

pub(crate) fn handshake_variant(e: &handshake::Error) -> &'static str
    ensures { result.now ≡ handshake_name e.now }
{
    match e {
        handshake::Error::Credentials(_) => "Credentials",
        handshake::Error::EmptyCredentials => "EmptyCredentials",
        handshake::Error::InvalidCredentials { .. } => "InvalidCredentials",
        handshake::Error::Transport(_) => "Transport",
        handshake::Error::TransportProtocolPolicyViolation { .. } => {
            "TransportProtocolPolicyViolation"
        }
        handshake::Error::ParseRefs(_) => "ParseRefs",
        handshake::Error::Memory => "Memory",
    }
}

pub(crate) fn refs_variant(e: &refmap::init::Error) -> &'static str
    ensures { result.now ≡ map_name e.now }
{
    match e {
        refmap::init::Error::UnknownObjectFormat { .. } => "UnknownObjectFormat",
        refmap::init::Error::MappingValidation(_) => "MappingValidation",
        refmap::init::Error::ListRefs(_) => "ListRefs",
        refmap::init::Error::Memory => "Memory",
    }
}

pub(crate) fn fetch_variant<A, E>(e: &fetch::Error<A, E>) -> &'static str
    ensures { result.now ≡ fetch_name e.now }
{
    match e {
        fetch::Error::FetchResponse(_) => "FetchResponse",
        fetch::Error::Negotiate(_) => "Negotiate",
        fetch::Error::Client(_) => "Client",
        fetch::Error::MissingServerFeature { .. } => "MissingServerFeature",
        fetch::Error::WriteShallowFile(_) => "WriteShallowFile",
        fetch::Error::ReadShallowFile(_) => "ReadShallowFile",
        fetch::Error::LockShallowFile(_) => "LockShallowFile",
        fetch::Error::RejectShallowRemote => "RejectShallowRemote",
        fetch::Error::ConsumePack(_) => "ConsumePack",
        fetch::Error::ReadRemainingBytes(_) => "ReadRemainingBytes",
        fetch::Error::Memory => "Memory",
    }
}
