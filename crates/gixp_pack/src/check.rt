//! The header and the trailer of a pack, checked while it streams.
ghost use Rattle.std.specs.Prelude.{◌≡◌, ◌+◌, ◌-◌, ◌≤◌, ℕ, List, [], ◌++◌, length, drop, take, OnOk, OnErr, IfOk};
ghost use Rattle.std.specs.Int.{w32, from_be_bytes};
ghost use Rattle.std.specs.Str.{bytes_eq};
ghost use Rattle.sha1.specs.Sha1.{Holds, sha1};
ghost use Rattle.gixp_pack.specs.Pack.{pack_of, objects_of};
ghost use Rattle.gixp_pack.specs.Taken.{HasTaken};

use sha1::Sha1;
use std::alloc::{AllocError, Global};
use thiserror::Error;

const HEADER_LEN: usize = 12;

const TRAILER_LEN: usize = 20;

const SIGNATURE: &[u8] = b"PACK";

/// The summary of a whole pack.
#[derive(Clone, Copy, Debug, PartialEq, Eq)]
pub struct PackSummary {
    /// The length in bytes, with header and trailer, or 2^64 - 1 if it is greater.
    pub bytes: u64,
    /// The number of objects in the header.
    pub objects: u32,
}

/// The fault of bytes that aren't a whole pack.
#[derive(Clone, Copy, Debug, PartialEq, Eq, Error)]
pub enum CheckError {
    /// There are fewer bytes than a header and a trailer have.
    #[error("it ends too early")]
    Short,
    /// It doesn't begin with `PACK`.
    #[error("it doesn't begin like a pack")]
    Signature,
    /// Its version is neither 2 nor 3.
    #[error("its version {0} is unknown")]
    Version(u32),
    /// The last 20 bytes aren't the SHA-1 of those before them.
    #[error("its checksum is wrong")]
    Checksum,
}

/// A pack that is checked piece by piece: `new`, `take` of each piece, and `finish`.
#[derive(Drop)]
pub struct PackCheck {
    // The hash of all bytes except the last 20.
    hasher: Sha1,
    // The first 12 bytes.
    header: Vec<u8>,
    // The last 20 bytes, which may be the trailer.
    last: Vec<u8>,
    bytes: u64,
}

impl PackCheck {
    /// A check without any bytes. It allocates nothing.
    pub fn new(alloc: Global) -> PackCheck
        ensures { HasTaken result [] }
    {
        PackCheck {
            hasher: Sha1::new(),
            header: Vec::new(alloc),
            last: Vec::new(alloc),
            bytes: 0,
        }
    }

    /// Takes the next piece.
    ///
    /// # Errors
    ///
    /// Only when an allocation fails. Then nothing is taken.
    pub fn take(&mut self, piece: &[u8]) -> Result<(), AllocError>
        ensures taken { OnOk result ((m : List ℕ) → HasTaken self.old m → HasTaken self.new (m ++ piece.now)) }
        ensures failed { OnErr result (self.new ≡ self.old) }
    {
        let alloc = *self.last.allocator();
        let all = joined(alloc, &self.last, piece)?;
        let ready = all.len().saturating_sub(TRAILER_LEN);
        let last = Vec::from_slice(alloc, &all[ready..])?;
        let header = begun(alloc, &self.header, piece)?;
        self.hasher.update(&all[..ready]);
        self.header = header;
        self.last = last;
        self.bytes = self.bytes.saturating_add(piece.len() as u64);
        Ok(())
    }

    /// Returns the summary of the pack.
    ///
    /// # Errors
    ///
    /// The first fault of the bytes, in the order of the variants.
    pub fn finish(self) -> Result<PackSummary, CheckError>
        ensures { (m : List ℕ) → HasTaken self m → result ≡ pack_of m }
    {
        let PackCheck {
            hasher,
            header,
            last,
            bytes,
        } = self;
        if bytes < (HEADER_LEN + TRAILER_LEN) as u64 {
            return Err(CheckError::Short);
        }
        let objects = objects_of(&header)?;
        if !is_same(&hasher.finalize(), &last) {
            return Err(CheckError::Checksum);
        }
        Ok(PackSummary { bytes, objects })
    }
}

fn joined(alloc: Global, first: &[u8], second: &[u8]) -> Result<Vec<u8>, AllocError>
    ensures { IfOk result (λ all. all.items ≡ first.now ++ second.now) }
{
    let mut all = Vec::from_slice(alloc, first)?;
    all.extend_from_slice(second)?;
    Ok(all)
}

// The header with as many bytes of the piece as it lacks.
fn begun(alloc: Global, header: &[u8], piece: &[u8]) -> Result<Vec<u8>, AllocError>
    ensures { IfOk result (λ more. more.items ≡ header.now ++ take (12 - length header.now) piece.now) }
{
    let missing = HEADER_LEN.saturating_sub(header.len());
    joined(alloc, header, &piece[..missing.min(piece.len())])
}

fn is_same(a: &[u8], b: &[u8]) -> bool
    ensures { result ≡ bytes_eq a.now b.now }
{
    a == b
}

// The big-endian number in the four bytes from this offset on.
fn word_at(bytes: &[u8], at: usize) -> u32
    requires { at + 4 ≤ length bytes.now }
    ensures { result ≡ from_be_bytes w32 (take 4 (drop at bytes.now)) }
{
    u32::from_be_bytes([bytes[at], bytes[at + 1], bytes[at + 2], bytes[at + 3]])
}

// The number of objects in a header.
fn objects_of(header: &[u8]) -> Result<u32, CheckError>
    ensures { result ≡ objects_of header.now }
{
    if header.len() < HEADER_LEN {
        return Err(CheckError::Short);
    }
    if !is_same(&header[..4], SIGNATURE) {
        return Err(CheckError::Signature);
    }
    match word_at(header, 4) {
        2 => Ok(word_at(header, 8)),
        3 => Ok(word_at(header, 8)),
        version => Err(CheckError::Version(version)),
    }
}
