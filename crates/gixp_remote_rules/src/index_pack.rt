//! The output of `git index-pack`, and the files of a pack.
ghost use Rattle.std.specs.Prelude.{◌≡◌, IfOk};
ghost use Rattle.std.specs.Option.{option_map};
ghost use Rattle.gixp_remote_rules.specs.IndexPack.{id_value, parsed_id, first_line_id, reported_pack, accepted_pack, pack_file};

use crate::text::find_byte;
use gixp_hash::ObjectId;
use std::alloc::{AllocError, Global};

fn parsed_id(text: &[u8]) -> Option<ObjectId>
    ensures { option_map id_value result ≡ parsed_id text.now }
{
    match ObjectId::from_hex(text) {
        Ok(id) => Some(id),
        Err(_) => None,
    }
}

// The id in the first line of a text.
fn first_line_id(text: &[u8]) -> Option<ObjectId>
    ensures { option_map id_value result ≡ first_line_id text.now }
{
    match find_byte(text, b'\n') {
        Some(at) => parsed_id(&text[..at]),
        None => parsed_id(text),
    }
}

/// The hash of the pack in the output of `git index-pack`: after `keep` and a tab, or after `pack`
/// and a tab if another process holds the lock.
pub fn reported_pack(line: &[u8]) -> Option<ObjectId>
    ensures { option_map id_value result ≡ reported_pack line.now }
{
    match find_byte(line, b'\t') {
        Some(at) => first_line_id(&line[at + 1..]),
        None => None,
    }
}

/// The hash of the pack, if `git index-pack` accepted it. Status 1 means that the pack is complete
/// but not connected.
pub fn accepted_pack(text: &[u8], status: u32) -> Option<ObjectId>
    ensures { option_map id_value result ≡ accepted_pack text.now status }
{
    if status < 2 {
        reported_pack(text)
    } else {
        None
    }
}

/// The path of a file of a pack in an object directory.
///
/// # Errors
///
/// Only when an allocation fails.
pub fn pack_file(
    alloc: Global,
    objects: &[u8],
    pack: &ObjectId,
    end: &[u8],
) -> Result<Vec<u8>, AllocError>
    ensures { IfOk result (λ path. path.items ≡ pack_file objects.now pack.now end.now) }
{
    let mut path = Vec::from_slice(alloc, objects)?;
    path.extend_from_slice(b"/pack/pack-")?;
    path.extend_from_slice(&pack.to_hex())?;
    path.extend_from_slice(end)?;
    Ok(path)
}
