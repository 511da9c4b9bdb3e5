//! Packs that a server names by URIs (git-config, "fetch.uriProtocols"; git-http-fetch,
//! "--packfile").
ghost use Rattle.std.specs.Prelude.{◌≡◌, ◌==◌, codes, ◌∷◌, [], ◌++◌, IfOk, OnOk, map, flat_map};
ghost use Rattle.std.specs.Option.{option_map};
ghost use Rattle.std.specs.List.{slice_split, position};
ghost use Rattle.std.specs.Str.{bytes_eq};
ghost use Rattle.bstr.specs.BStr.{bstr_bytes};
ghost use Rattle.bstr.specs.Owned.{bstring_bytes};
ghost use Rattle.gixp_hash.specs.Hex.{encode_lower};
ghost use Rattle.gixp_remote_rules.specs.IndexPack.{id_value};
ghost use Rattle.gixp_remote_rules.specs.Uris.{names_protocol, allows_uri, part_word, index_argument, download_argv, pack_name_in, IsCheckedName, IsDownload, has_second_line, fsck_pack_argv};

use crate::argv::{add, add_all, concat};
use crate::policy::has_word;
use crate::text::find_byte;
use bstr::{BStr, BString};
use gixp_hash::ObjectId;
use std::alloc::{AllocError, Global};

/// The protocols that the user's setting names.
#[derive(Clone, Copy, Debug, PartialEq, Eq)]
pub struct UriSetting {
    /// http.
    pub http: bool,
    /// https.
    pub https: bool,
}

/// Why a download failed, by the output of `git http-fetch`.
#[derive(Clone, Copy, Debug, PartialEq, Eq)]
pub enum DownloadError {
    /// The output doesn't begin with the lock.
    NoLock,
    /// The output doesn't have the hash of the pack.
    NoName,
    /// git exited with an error.
    Unfinished,
}

// The words of a list, which commas separate.
fn pieces_of(alloc: Global, list: &[u8]) -> Result<Vec<BStr<'_>>, AllocError>
    ensures { IfOk result (λ pieces. map bstr_bytes pieces.items ≡ slice_split (λ b. b == 44) list.now) }
{
    list.split(|b| *b == b',').map(BStr::new).collect(alloc)
}

fn names_protocol(alloc: Global, setting: Option<&[u8]>, word: &[u8]) -> Result<bool, AllocError>
    ensures { IfOk result (λ is. is ≡ names_protocol word.now (option_map (λ s. s.now) setting.entry)) }
{
    let Some(list) = setting else {
        return Ok(false);
    };
    let pieces = pieces_of(alloc, list)?;
    Ok(has_word(&pieces, word))
}

/// The protocols of a setting, whose words are separated by commas. Only `http` and `https` count.
///
/// # Errors
///
/// Only when an allocation fails.
pub fn uri_setting(alloc: Global, setting: Option<&[u8]>) -> Result<UriSetting, AllocError>
    ensures http { IfOk result (λ s. s.http ≡ names_protocol (codes "http") (option_map (λ t. t.now) setting.entry)) }
    ensures https { IfOk result (λ s. s.https ≡ names_protocol (codes "https") (option_map (λ t. t.now) setting.entry)) }
{
    let http = names_protocol(alloc, setting, b"http")?;
    let https = names_protocol(alloc, setting, b"https")?;
    Ok(UriSetting { http, https })
}

impl UriSetting {
    /// Whether the setting names the protocol of a URI.
    pub fn allows(self, uri: &[u8]) -> bool
        ensures { result ≡ allows_uri self.http self.https uri.now }
    {
        (self.http && uri.starts_with(b"http://")) || (self.https && uri.starts_with(b"https://"))
    }
}

fn add_part(alloc: Global, argv: &mut Vec<BString>, word: &[u8]) -> Result<(), AllocError>
    ensures { OnOk result (map bstring_bytes argv.new.items ≡ map bstring_bytes argv.old.items ++ part_word word.now) }
{
    if word == b"--check-self-contained-and-connected".as_slice() {
        return Ok(());
    }
    if word.starts_with(b"--strict") {
        return add(alloc, argv, b"--fsck-objects");
    }
    add(alloc, argv, word)
}

/// The arguments of `git index-pack` for one of several packs, made from those for a single pack.
/// Connectivity can be checked only when all packs are present.
///
/// # Errors
///
/// Only when an allocation fails.
pub fn part_argv(alloc: Global, argv: &[BString]) -> Result<Vec<BString>, AllocError>
    ensures { IfOk result (λ all. map bstring_bytes all.items ≡ flat_map part_word (map bstring_bytes argv.now)) }
{
    let mut all = Vec::new(alloc);
    for word in argv {
        add_part(alloc, &mut all, word.as_bytes())?;
    }
    Ok(all)
}

// An argument for `git index-pack`, as an argument of `git http-fetch`.
fn add_argument(alloc: Global, argv: &mut Vec<BString>, word: &[u8]) -> Result<(), AllocError>
    ensures { OnOk result (map bstring_bytes argv.new.items ≡ map bstring_bytes argv.old.items ++ index_argument word.now ∷ []) }
{
    let argument = concat(alloc, &[b"--index-pack-arg=", word])?;
    add(alloc, argv, &argument)?;
    Ok(())
}

fn arguments(alloc: Global, argv: &[BString]) -> Result<Vec<BString>, AllocError>
    ensures { IfOk result (λ all. map bstring_bytes all.items ≡ map index_argument (map bstring_bytes argv.now)) }
{
    let mut all = Vec::new(alloc);
    for word in argv {
        add_argument(alloc, &mut all, word.as_bytes())?;
    }
    Ok(all)
}

/// The arguments of `git http-fetch`, which downloads the pack of this name from a URI and passes
/// `argv` to `git index-pack`. The URI begins with its protocol.
///
/// # Errors
///
/// Only when an allocation fails.
pub fn download_argv(
    alloc: Global,
    name: &[u8],
    argv: &[BString],
    uri: &[u8],
) -> Result<Vec<BString>, AllocError>
    ensures { IfOk result (λ all. map bstring_bytes all.items ≡ download_argv name.now (map bstring_bytes argv.now) uri.now) }
{
    let pack = concat(alloc, &[b"--packfile=", name])?;
    let arguments = arguments(alloc, argv)?;
    let mut all = Vec::new(alloc);
    add(alloc, &mut all, b"http-fetch")?;
    add(alloc, &mut all, &pack)?;
    add_all(alloc, &mut all, &arguments)?;
    add(alloc, &mut all, uri)?;
    Ok(all)
}

// The hash of a pack, followed by a line feed.
fn pack_name_in(rest: &[u8]) -> Option<ObjectId>
    ensures { option_map id_value result ≡ pack_name_in rest.now }
{
    if rest.len() < 41 {
        return None;
    }
    let name = &rest[..40];
    let end = &rest[40..41];
    if end != b"\n".as_slice() {
        return None;
    }
    match ObjectId::from_hex(name) {
        Ok(id) => Some(id),
        Err(_) => None,
    }
}

// The hash, if git exited with 0.
fn checked_name(name: Option<ObjectId>, status: u32) -> Result<ObjectId, DownloadError>
    ensures { IsCheckedName (option_map id_value name) status result }
{
    match name {
        None => Err(DownloadError::NoName),
        Some(id) => {
            if status == 0 {
                Ok(id)
            } else {
                Err(DownloadError::Unfinished)
            }
        }
    }
}

/// The hash of the downloaded pack, by the output and the exit status of git.
///
/// # Errors
///
/// Why the download failed.
pub fn downloaded_pack(text: &[u8], status: u32) -> Result<ObjectId, DownloadError>
    ensures { IsDownload text.now status result }
{
    match text.strip_prefix(b"keep\t") {
        Some(rest) => checked_name(pack_name_in(rest), status),
        None => Err(DownloadError::NoLock),
    }
}

/// Whether `git index-pack` listed more than the pack: the ids of `.gitmodules` files that are not
/// in the pack.
pub fn lists_gitmodules(text: &[u8]) -> bool
    ensures { result ≡ has_second_line text.now (position (λ b. b == 10) text.now) }
{
    match find_byte(text, b'\n') {
        Some(at) => text.len() - at > 1,
        None => false,
    }
}

/// Whether `name` is the hash of the pack in lower case.
pub fn has_pack_name(name: &[u8], pack: &ObjectId) -> bool
    ensures { result ≡ bytes_eq name.now (encode_lower pack.now.bytes) }
{
    let digits = pack.to_hex();
    name == digits.as_slice()
}

/// The arguments that make git check the objects of a pack again. It writes the index to a file.
///
/// # Errors
///
/// Only when an allocation fails.
pub fn fsck_pack_argv(alloc: Global, index: &[u8], pack: &[u8]) -> Result<Vec<BString>, AllocError>
    ensures { IfOk result (λ argv. map bstring_bytes argv.items ≡ fsck_pack_argv index.now pack.now) }
{
    let mut argv = Vec::new(alloc);
    add(alloc, &mut argv, b"index-pack")?;
    add(alloc, &mut argv, b"--fsck-objects")?;
    add(alloc, &mut argv, b"-o")?;
    add(alloc, &mut argv, index)?;
    add(alloc, &mut argv, pack)?;
    Ok(argv)
}
