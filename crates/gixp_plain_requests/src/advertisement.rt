//! The first ref line of a reference advertisement, with the names of capabilities that the server lacks.
ghost use Rattle.std.specs.Prelude.{◌≡◌, ◌+◌, ◌≤◌, ◌++◌, length, drop, OnOk, IfOk};
ghost use Rattle.gixp_packetline.specs.Frames.{size_of};
ghost use Rattle.gixp_packetline.specs.FrameText.{payload_text};
ghost use Rattle.gixp_capabilities.specs.Capabilities.{capabilities_of_line};
ghost use Rattle.gixp_plain_requests.specs.Advertisement.{text_if, missing_names, named_line, lacks_by, lacks_in, size_by, line_size, is_version_1, version_size, lacks_first, with_names, advertised, lacks_advertised, size_needed};

use crate::line::{MOST_BYTES, push_line};
use crate::missing::Missing;
use gixp_capabilities::{Capabilities, client};
use gixp_utils::without_line_end;
use hex;
use std::alloc::{AllocError, Global};

// Appends a name after a blank, if it is missing.
fn push_name(text: &mut Vec<u8>, is_missing: bool, name: &[u8]) -> Result<(), AllocError>
    ensures { OnOk result (text.new.items ≡ text.old.items ++ text_if is_missing name.now) }
{
    if is_missing {
        text.extend_from_slice(name)?;
    }
    Ok(())
}

// Appends the names of the missing capabilities that a client needs.
fn push_names(text: &mut Vec<u8>, missing: Missing) -> Result<(), AllocError>
    ensures { OnOk result (text.new.items ≡ text.old.items ++ missing_names missing) }
{
    push_name(text, missing.multi_ack_detailed, b" multi_ack_detailed")?;
    push_name(text, missing.side_band, b" side-band-64k")?;
    push_name(text, missing.include_tag, b" include-tag")
}

// A ref line with the names of the missing capabilities.
fn named(alloc: Global, line: &[u8], missing: Missing) -> Result<Vec<u8>, AllocError>
    ensures { IfOk result (λ text. text.items ≡ named_line missing line.now) }
{
    let front = without_line_end(line);
    let mut text = Vec::from_slice(alloc, front)?;
    push_names(&mut text, missing)?;
    text.extend_from_slice(&line[front.len()..])?;
    Ok(text)
}

// What the server of a line lacks; nothing if the line has no capabilities.
fn lacks_by(alloc: Global, line: &[u8]) -> Result<Missing, AllocError>
    ensures { IfOk result (λ missing. missing ≡ lacks_by (capabilities_of_line line.now)) }
{
    match Capabilities::from_bytes(alloc, line) {
        Ok((capabilities, _)) => Ok(Missing::of(&capabilities)),
        Err(client::Error::MissingDelimitingNullByte) => Ok(Missing::nothing()),
        Err(_) => Err(AllocError),
    }
}

// The packet line of a line with the missing names, if they fit into it, and what is missing.
fn named_packet(alloc: Global, line: &[u8]) -> Result<(Missing, Vec<u8>), AllocError>
    requires { length line.now ≤ 65516 }
    ensures missing { IfOk result (λ r. r.0 ≡ lacks_in line.now) }
    ensures text { IfOk result (λ r. r.1.items ≡ payload_text (named_line (lacks_in line.now) line.now)) }
{
    let missing = lacks_by(alloc, line)?;
    let text = named(alloc, line, missing)?;
    let mut packet = Vec::new(alloc);
    if text.len() > MOST_BYTES - 4 {
        push_line(&mut packet, line)?;
        return Ok((Missing::nothing(), packet));
    }
    push_line(&mut packet, &text)?;
    Ok((missing, packet))
}

// The size of a packet line by the number of its digits; 4 if it has no payload, or if the digits are
// none.
fn size_by(size: Option<usize>) -> usize
    ensures { result ≡ size_by size }
{
    match size {
        Some(size) => {
            if size > MOST_BYTES || size < 4 {
                4
            } else {
                size
            }
        }
        None => 4,
    }
}

// `None` where a byte is not a hexadecimal digit.
fn size_of(digits: &[u8]) -> Option<usize>
    requires { length digits.now ≡ 4 }
    ensures { result ≡ size_of digits.now }
{
    let mut pair = [0; 2];
    match hex::decode_to_slice(digits, &mut pair) {
        Ok(()) => {
            let [high, low] = pair;
            Some(usize::from(high) * 256 + usize::from(low))
        }
        Err(_) => None,
    }
}

/// The size of the packet line at the front of these bytes, its digits included. 4 before all digits
/// are present, and if it has no payload.
pub(crate) fn line_size(bytes: &[u8]) -> usize
    ensures size { result ≡ line_size bytes.now }
    ensures some { 4 ≤ result }
    ensures fits { result ≤ 65520 }
{
    if bytes.len() < 4 {
        return 4;
    }
    size_by(size_of(&bytes[..4]))
}

fn is_version_1(text: &[u8]) -> bool
    ensures { result ≡ is_version_1 text.now }
{
    text == b"000eversion 1\n".as_slice() || text == b"000dversion 1".as_slice()
}

/// The size of the packet line `version 1` at the front of these bytes; 0 if there is none.
pub(crate) fn version_size(bytes: &[u8]) -> usize
    ensures size { result ≡ version_size bytes.now }
    ensures there { result ≤ length bytes.now }
    ensures fits { result ≤ 14 }
{
    let size = line_size(bytes);
    if bytes.len() >= size && is_version_1(&bytes[..size]) {
        size
    } else {
        0
    }
}

/// How many bytes are needed before the names can be added.
pub(crate) fn size_needed(bytes: &[u8]) -> usize
    ensures size { result ≡ size_needed bytes.now }
    ensures fits { result ≤ 65534 }
{
    let version = version_size(bytes);
    version + line_size(&bytes[version..])
}

// The bytes with the missing names in the packet line at their front, if that is the first ref line.
// Also returns what is missing.
fn with_names(alloc: Global, bytes: &[u8]) -> Result<(Missing, Vec<u8>), AllocError>
    ensures missing { IfOk result (λ r. r.0 ≡ lacks_first bytes.now) }
    ensures text { IfOk result (λ r. r.1.items ≡ with_names bytes.now) }
{
    let size = line_size(bytes);
    if bytes.len() < size || size <= 4 {
        return Ok((Missing::nothing(), Vec::from_slice(alloc, bytes)?));
    }
    let (missing, mut all) = named_packet(alloc, &bytes[4..size])?;
    all.extend_from_slice(&bytes[size..])?;
    Ok((missing, all))
}

/// The first bytes of an advertisement, with the missing names in its first ref line. Also returns what
/// is missing.
pub(crate) fn advertised(alloc: Global, bytes: &[u8]) -> Result<(Missing, Vec<u8>), AllocError>
    ensures missing { IfOk result (λ r. r.0 ≡ lacks_advertised bytes.now) }
    ensures text { IfOk result (λ r. r.1.items ≡ advertised bytes.now) }
{
    let version = version_size(bytes);
    let (missing, named) = with_names(alloc, &bytes[version..])?;
    let mut all = Vec::from_slice(alloc, &bytes[..version])?;
    all.extend_from_slice(&named)?;
    Ok((missing, all))
}
