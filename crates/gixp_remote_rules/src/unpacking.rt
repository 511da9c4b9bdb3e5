//! Whether a pack is kept or its objects are unpacked (git-config, "fetch.unpackLimit",
//! "transfer.unpackLimit").
ghost use Rattle.std.specs.Prelude.{◌≡◌, ◌≤◌, ◌+◌, length, IfOk, map};
ghost use Rattle.std.specs.Option.{option_map};
ghost use Rattle.bstr.specs.Owned.{bstring_bytes};
ghost use Rattle.gixp_remote_rules.specs.HelperOptions.{options_value};
ghost use Rattle.gixp_remote_rules.specs.Unpacking.{without_line_end, parse_limit, unpack_limit, may_unpack, unpacks, u32_at, count_by, pack_count, unpack_argv};
ghost use Rattle.std.specs.Str.{bytes_eq};

use crate::argv::{add, add_if, shallow_argv};
use crate::number::number_of;
use crate::options::HelperOptions;
use crate::text::find_byte;
use bstr::BString;
use std::alloc::{AllocError, Global};

fn without_line_end(text: &[u8]) -> &[u8]
    ensures { result.now ≡ without_line_end text.now }
{
    match find_byte(text, b'\n') {
        Some(at) => &text[..at],
        None => text,
    }
}

/// The limit that git prints for a setting. `None` if it is negative.
pub fn parse_limit(text: &[u8]) -> Option<u32>
    ensures { result ≡ parse_limit text.now }
{
    if text.starts_with(b"-") {
        None
    } else {
        Some(number_of(without_line_end(text)).unwrap_or(4294967295))
    }
}

/// A pack with fewer objects is unpacked. `transfer.unpackLimit` overrides `fetch.unpackLimit`; the
/// default is 100.
pub fn unpack_limit(transfer: Option<u32>, fetch: Option<u32>) -> u32
    ensures { result ≡ unpack_limit transfer fetch }
{
    match transfer {
        Some(limit) => limit,
        None => fetch.unwrap_or(100),
    }
}

/// Whether packs may be unpacked: not in a clone, not from a promisor remote, and not if git checks
/// the objects.
pub fn may_unpack(options: &HelperOptions, has_checks: bool) -> bool
    ensures { result ≡ may_unpack (options_value options.now) has_checks }
{
    !options.is_cloning && !options.is_from_promisor && !has_checks
}

/// Whether a pack with this many objects is unpacked. With a limit of 0 every pack is.
pub fn unpacks(limit: u32, count: u32) -> bool
    ensures { result ≡ unpacks limit count }
{
    limit == 0 || count < limit
}

fn is_same(a: &[u8], b: &[u8]) -> bool
    ensures { result ≡ bytes_eq a.now b.now }
{
    a == b
}

// The big-endian number in the four bytes at an offset.
fn u32_at(bytes: &[u8], at: usize) -> u32
    requires { at + 4 ≤ length bytes.now }
    ensures { result ≡ u32_at at bytes.now }
{
    u32::from_be_bytes([bytes[at], bytes[at + 1], bytes[at + 2], bytes[at + 3]])
}

// The number of objects, if the version is 2 or 3.
fn count_by(version: u32, count: u32) -> Option<u32>
    ensures { result ≡ count_by version count }
{
    match version {
        2 | 3 => Some(count),
        _ => None,
    }
}

/// The number of objects in the header of a pack (gitformat-pack). `None` if the header doesn't
/// have 12 bytes, or isn't that of version 2 or 3.
pub fn pack_count(header: &[u8]) -> Option<u32>
    ensures { result ≡ pack_count header.now }
{
    if header.len() != 12 || !is_same(&header[..4], b"PACK") {
        return None;
    }
    count_by(u32_at(header, 4), u32_at(header, 8))
}

/// The arguments of `git unpack-objects`. If the server sent a boundary, `shallow` is the file that
/// has it.
///
/// # Errors
///
/// Only when an allocation fails.
pub fn unpack_argv(
    alloc: Global,
    shallow: Option<&[u8]>,
    shows_progress: bool,
) -> Result<Vec<BString>, AllocError>
    ensures { IfOk result (λ argv. map bstring_bytes argv.items
        ≡ unpack_argv (option_map (λ s. s.now) shallow.entry) shows_progress) }
{
    let mut argv = shallow_argv(alloc, shallow)?;
    add(alloc, &mut argv, b"unpack-objects")?;
    add_if(alloc, &mut argv, !shows_progress, b"-q")?;
    Ok(argv)
}
