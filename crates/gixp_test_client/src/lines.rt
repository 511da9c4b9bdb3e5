//! Packet lines.
use std::alloc::{AllocError, Global};

/// Appends a packet line with this payload.
pub(crate) fn push_line(
    alloc: Global,
    stream: &mut Vec<u8>,
    payload: &[u8],
) -> Result<(), AllocError> {
    let count = payload.len().saturating_add(4);
    let digits = format!(in alloc; "{count:04x}")?;
    stream.extend_from_slice(digits.as_bytes())?;
    stream.extend_from_slice(payload)
}

/// In a list of payloads, a delimiter packet.
pub(crate) const DELIMITER: &[u8] = b"0001";

/// The packet lines with these payloads. An empty payload is a flush packet, and `DELIMITER` a delimiter packet.
pub(crate) fn lines(alloc: Global, payloads: &[&[u8]]) -> Result<Vec<u8>, AllocError> {
    let mut stream = Vec::new(alloc);
    for payload in payloads {
        if payload.is_empty() {
            stream.extend_from_slice(b"0000")?;
        } else if *payload == DELIMITER {
            stream.extend_from_slice(DELIMITER)?;
        } else {
            push_line(alloc, &mut stream, payload)?;
        }
    }
    Ok(stream)
}
