//! Checks of the object format, and of the end and the names of a list of refs.
ghost use Rattle.std.specs.Prelude.{◌≡◌, Ok, true, false, IfOk};
ghost use Rattle.std.specs.Option.{option_map};
ghost use Rattle.bstr.specs.BStr.{bstr_bytes};
ghost use Rattle.gixp_response.specs.Sections.{is_flush};
ghost use Rattle.gixp_refmap.specs.Mapping.{unknown_format};
ghost use Rattle.gixp_client.specs.ListEnds.{are_whole, is_lossy, whole_refs, of_unended, whole_map};

use crate::error::Error;
use bstr::BStr;
use gixp_capabilities::Capabilities;
use gixp_packetline::{ExtendedBufRead, MessageKind};
use gixp_refmap::refmap::init;
use gixp_refmap::{RefMap, ls_refs};
use gixp_refs::handshake::Ref;

/// The object format that the server names, if it isn't SHA-1. A server that names none uses SHA-1 (gitprotocol-v2, "object-format").
pub(crate) fn unknown_format(capabilities: &Capabilities) -> Option<BStr<'_>>
    ensures { option_map bstr_bytes result ≡ unknown_format capabilities.now }
{
    let value = match capabilities.capability(b"object-format") {
        None => return None,
        Some(capability) => capability.value(),
    };
    match value {
        None => None,
        Some(format) => {
            if format.as_bytes() == b"sha1".as_slice() {
                None
            } else {
                Some(format)
            }
        }
    }
}

pub(crate) fn is_at_flush<T: ExtendedBufRead>(reader: &T) -> bool
    ensures { result ≡ is_flush (T.reading reader.now).stopped }
{
    matches!(reader.stopped_at(), Some(MessageKind::Flush))
}

/// Whether the refs of a ref map are complete: the session already had them, or their list ended with a flush packet.
pub(crate) fn are_whole<T: ExtendedBufRead>(are_here: bool, reader: &T) -> bool
    ensures { result ≡ are_whole are_here (T.reading reader.now).stopped }
{
    are_here || is_at_flush(reader)
}

/// Whether the list of refs for a ref map lost white space of a name. `are_here`: the session already had the refs, so no list was
/// read.
pub(crate) fn is_lossy(are_here: bool, lost_white_space: bool) -> bool
    ensures { result ≡ is_lossy are_here lost_white_space }
{
    !are_here && lost_white_space
}

/// Returns `UnterminatedRefs` for a list that didn't end with a flush packet, and `UnsupportedRefName` for a list that lost white
/// space of a name.
pub(crate) fn whole_refs(
    listed: Result<Vec<Ref>, ls_refs::Error>,
    is_ended: bool,
    is_lossy: bool,
) -> Result<Vec<Ref>, Error>
    ensures whole { result ≡ whole_refs listed is_ended is_lossy }
    ensures listed { IfOk result (λ refs. (listed ≡ Ok refs) × (is_ended ≡ true) × (is_lossy ≡ false)) }
{
    match listed {
        Ok(refs) => {
            if !is_ended {
                Err(Error::UnterminatedRefs)
            } else if is_lossy {
                Err(Error::UnsupportedRefName)
            } else {
                Ok(refs)
            }
        }
        Err(e) => Err(Error::from(e)),
    }
}

// The error of a ref map whose list of refs didn't end with a flush packet.
fn of_unended(e: init::Error) -> Error
    ensures { result ≡ of_unended e }
{
    match e {
        init::Error::UnknownObjectFormat { .. } | init::Error::MappingValidation(_) => {
            Error::UnterminatedRefs
        }
        init::Error::ListRefs(e) => Error::from(e),
        init::Error::Memory => Error::Memory,
    }
}

/// Returns `UnterminatedRefs` for a ref map whose list of refs is incomplete, and `UnsupportedRefName` for one whose list lost white
/// space of a name.
pub(crate) fn whole_map(
    made: Result<RefMap, init::Error>,
    is_whole: bool,
    is_lossy: bool,
) -> Result<RefMap, Error>
    ensures whole { result ≡ whole_map made is_whole is_lossy }
    ensures made { IfOk result (λ m. (made ≡ Ok m) × (is_whole ≡ true) × (is_lossy ≡ false)) }
{
    match made {
        Ok(map) => {
            if !is_whole {
                Err(Error::UnterminatedRefs)
            } else if is_lossy {
                Err(Error::UnsupportedRefName)
            } else {
                Ok(map)
            }
        }
        Err(e) => {
            if is_whole {
                Err(Error::from(e))
            } else {
                Err(of_unended(e))
            }
        }
    }
}
