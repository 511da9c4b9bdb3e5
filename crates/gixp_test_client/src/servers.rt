//! Recorded servers.
use crate::lines::{DELIMITER, lines};
use bstr::BString;
use gixp_transport::{Bodies, Body};
use std::alloc::{AllocError, Global};

/// The capability advertisement of a server of version 2.
pub(crate) const GREETING: &[&[u8]] = &[
    b"version 2\n",
    b"agent=git/2.39.5\n",
    b"ls-refs=unborn\n",
    b"fetch=shallow wait-for-done filter\n",
    b"object-format=sha1\n",
    b"",
];

/// A list of refs.
pub(crate) const REFS: &[&[u8]] = &[
    b"7257effbd41e1233eaae5744e614c5c728e3c979 refs/heads/main\n",
    b"",
];

/// A list of refs that ends with a delimiter packet.
pub(crate) const UNENDED: &[&[u8]] = &[
    b"7257effbd41e1233eaae5744e614c5c728e3c979 refs/heads/main\n",
    DELIMITER,
];

/// The advertisement of a server whose object format is SHA-256.
pub(crate) const SHA256: &[&[u8]] = &[
    b"version 2\n",
    b"ls-refs=unborn\n",
    b"fetch=shallow\n",
    b"object-format=sha256\n",
    b"",
];

/// A response to a fetch: messages of bands 2 and 3, and a pack.
pub(crate) const PACK: &[&[u8]] = &[
    b"packfile\n",
    b"\x02Counting obj",
    b"\x02ects: 1\rCounting objects: 2, done.\n",
    b"\x01PA",
    b"\x02Total 2\n",
    b"\x01CK",
    b"",
];

/// The same with an error on band 3.
pub(crate) const REPORTED: &[&[u8]] = &[b"packfile\n", b"\x01PA", b"\x03disk full\n\0", b""];

/// The list of refs of an empty repository.
pub(crate) const EMPTY: &[&[u8]] = &[b""];

/// An error line.
pub(crate) const DENIED: &[&[u8]] = &[b"ERR access denied\n"];

/// A response without a pack to a request with `done`.
pub(crate) const UNPACKED: &[&[u8]] = &[b"acknowledgments\n", b"NAK\n", b""];

/// The advertisement of a server of version 0.
pub(crate) const OLD: &[&[u8]] = &[
    b"7257effbd41e1233eaae5744e614c5c728e3c979 refs/heads/main\0multi_ack_detailed side-band-64k include-tag\n",
    b"",
];

/// The same without a capability that the client needs.
pub(crate) const OLDER: &[&[u8]] = &[
    b"7257effbd41e1233eaae5744e614c5c728e3c979 refs/heads/main\0ofs-delta\n",
    b"",
];

/// The same of a server whose repository is shallow.
pub(crate) const OLD_SHALLOW: &[&[u8]] = &[
    b"7257effbd41e1233eaae5744e614c5c728e3c979 refs/heads/main\0multi_ack_detailed side-band-64k include-tag shallow\n",
    b"shallow 7257effbd41e1233eaae5744e614c5c728e3c979\n",
    b"",
];

/// The response of a server of version 0 with a pack.
pub(crate) const OLD_PACK: &[&[u8]] = &[b"NAK\n", b"\x01PACK", b""];

/// A transport over the responses of a server. Each response is the packet lines with these payloads.
pub(crate) fn server(alloc: Global, answers: &[&[&[u8]]]) -> Result<Bodies, AllocError> {
    let mut bodies = Vec::new(alloc);
    for answer in answers {
        bodies.push(Body::Bytes(lines(alloc, answer)?))?;
    }
    let url = BString::from_slice(alloc, b"mem:")?;
    Bodies::new(alloc, bodies, url, Vec::new(alloc))
}
