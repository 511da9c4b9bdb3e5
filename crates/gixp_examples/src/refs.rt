//! The refs of recorded responses.
use gix_protocol::handshake::Ref;
use gix_protocol::handshake::refs::{from_v2_refs, parse};
use gix_protocol::transport::LineReader;
use std::alloc::Global;
use std::fs::File;
use std::io::Read;

/// The refs of a recorded `ls-refs` response.
pub fn recorded_refs<R: Read>(alloc: Global, answer: &mut R) -> Result<Vec<Ref>, parse::Error> {
    let mut lines = LineReader::new(alloc, answer)?;
    from_v2_refs(alloc, &mut lines)
}

/// The refs of a response in a file.
pub fn refs_of_file(alloc: Global, answer: &mut File) -> Result<Vec<Ref>, parse::Error> {
    recorded_refs(alloc, answer)
}

/// The refs of a response in memory.
pub fn refs_of_bytes(alloc: Global, mut answer: &[u8]) -> Result<Vec<Ref>, parse::Error> {
    recorded_refs(alloc, &mut answer)
}
