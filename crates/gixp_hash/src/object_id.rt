//! Object ids.
ghost use Rattle.std.specs.Prelude.{◌≡◌, ◌↔◌, IsTrue, MatchResult, Some, replicate};
ghost use Rattle.hex.specs.Hex.{encode_lower};
ghost use Rattle.gixp_hash.specs.ObjectId.{id_of, IsIdRefusal};

use crate::{decode, digits};
use hex;
use std::fmt;

/// The name of an object: the 20 bytes of its SHA-1 (gitprotocol-common, "ABNF Notation", `obj-id`).
///
/// Ids are ordered by their bytes, from the first one on.
#[derive(Clone, Copy, PartialEq, Eq, PartialOrd, Ord, Hash)]
pub struct ObjectId {
    /// The 20 bytes. Any 20 bytes are an id.
    pub bytes: [u8; 20],
}

impl ObjectId {
    /// Reads an id from its text of 40 hexadecimal digits, in either case.
    ///
    /// # Errors
    ///
    /// `InvalidLength` where the text doesn't have 40 bytes. `InvalidDigit` where it has 40 bytes, but one of them is
    /// not a hexadecimal digit.
    #[inline(always)]
    pub fn from_hex(text: &[u8]) -> Result<ObjectId, decode::Error>
        ensures { MatchResult result (λ id. id_of text.now ≡ Some id.bytes) (IsIdRefusal text.now) }
    {
        if text.len() != 40 {
            return Err(decode::Error::InvalidLength(text.len()));
        }
        if let Some(bytes) = digits::decode(text) {
            return Ok(ObjectId { bytes });
        }
        let mut bytes = [0; 20];
        match hex::decode_to_slice(text, &mut bytes) {
            Ok(()) => Ok(ObjectId { bytes }),
            Err(_) => Err(decode::Error::InvalidDigit),
        }
    }

    /// The null id: 20 zero bytes. It names no object.
    pub fn null() -> ObjectId
        ensures { result.bytes ≡ replicate 20 0 }
    {
        ObjectId { bytes: [0; 20] }
    }

    /// Whether this is the null id.
    pub fn is_null(&self) -> bool
        ensures { IsTrue result ↔ (self.now.bytes ≡ replicate 20 0) }
    {
        self.bytes == [0; 20]
    }

    /// The text of the id: 40 hexadecimal digits in lower case.
    pub fn to_hex(&self) -> [u8; 40]
        ensures { result ≡ encode_lower self.now.bytes }
    {
        digits::encode(&self.bytes)
    }

    /// The 20 bytes of the id.
    pub fn as_bytes(&self) -> &[u8]
        ensures { result.now ≡ self.now.bytes }
    {
        self.bytes.as_slice()
    }
}

/// Writes the id as `to_hex` does.
impl fmt::Display for ObjectId {
    ghost output = { λ id. Some (encode_lower id.bytes) };

    fn fmt<W: fmt::Write>(&self, f: &mut fmt::Formatter<W>) -> fmt::Result {
        match str::from_utf8(&self.to_hex()) {
            Ok(text) => f.write_str(text),
            Err(_) => Err(fmt::Error),
        }
    }
}

/// Writes the id as `to_hex` does.
impl fmt::Debug for ObjectId {
    ghost debug_output = { λ id. Some (encode_lower id.bytes) };

    fn fmt<W: fmt::Write>(&self, f: &mut fmt::Formatter<W>) -> fmt::Result {
        fmt::Display::fmt(self, f)
    }
}
