//! Passwords in URLs (RFC 3986, "User Information").
ghost use Rattle.std.specs.Prelude.{◌≡◌, ◌<◌, ◌++◌, length, IfOk, IfSome, codes};
ghost use Rattle.std.specs.List.{position};
ghost use Rattle.std.specs.Option.{option_map};
ghost use Rattle.bstr.specs.Owned.{bstring_bytes};
ghost use Rattle.gixp_url.specs.Password.{ends_authority, authority_split, account_split, redacted_account, redacted_after_scheme, redacted};

use crate::address::is_scheme;
use crate::text::cut;
use bstr::{BString, ByteSlice};
use std::alloc::{AllocError, Global};

fn ends_authority(byte: u8) -> bool
    ensures { result ≡ ends_authority byte }
{
    byte == b'/' || byte == b'?' || byte == b'#'
}

// The offset after the authority, if anything follows it.
fn end_of_authority(text: &[u8]) -> Option<usize>
    ensures offset { result ≡ position ends_authority text.now }
    ensures within { IfSome result (λ at. at < length text.now) }
{
    text.iter().position(|b| ends_authority(*b))
}

// The authority that a text begins with, and the text after it.
fn authority_split(text: &[u8]) -> (&[u8], &[u8])
    ensures { (result.0.now, result.1.now) ≡ authority_split text.now }
{
    match end_of_authority(text) {
        Some(at) => (&text[..at], &text[at..]),
        None => (text, b""),
    }
}

// The user and the password of an authority, and its host.
fn account_split(authority: &[u8]) -> Option<(&[u8], &[u8])>
    ensures { option_map (λ p. (p.0.now, p.1.now)) result ≡ account_split authority.now }
{
    authority.rsplit_once_str(b"@")
}

// A URL with `<redacted>` for its password.
fn redacted_url(
    alloc: Global,
    scheme: &[u8],
    user: &[u8],
    host: &[u8],
    path: &[u8],
) -> Result<BString, AllocError>
    ensures { IfOk result (λ url. bstring_bytes url ≡ ((((scheme.now ++ codes "://") ++ user.now) ++ codes ":<redacted>@") ++ host.now) ++ path.now) }
{
    let mut url = Vec::from_slice(alloc, scheme)?;
    url.extend_from_slice(b"://")?;
    url.extend_from_slice(user)?;
    url.extend_from_slice(b":<redacted>@")?;
    url.extend_from_slice(host)?;
    url.extend_from_slice(path)?;
    Ok(BString::from(url))
}

// The redacted URL, if the account has a password.
fn redacted_account(
    alloc: Global,
    scheme: &[u8],
    account: Option<(&[u8], &[u8])>,
    path: &[u8],
) -> Result<Option<BString>, AllocError>
    ensures { IfOk result (λ url. option_map bstring_bytes url
        ≡ redacted_account scheme.now (option_map (λ p. (p.0.now, p.1.now)) account.entry) path.now) }
{
    let Some((account, host)) = account else {
        return Ok(None);
    };
    match cut(account, b':') {
        Some((user, _)) => Ok(Some(redacted_url(alloc, scheme, user, host, path)?)),
        None => Ok(None),
    }
}

// The redacted URL, by the text after `://`.
fn redacted_after_scheme(
    alloc: Global,
    scheme: &[u8],
    rest: &[u8],
) -> Result<Option<BString>, AllocError>
    ensures { IfOk result (λ url. option_map bstring_bytes url ≡ redacted_after_scheme scheme.now rest.now) }
{
    let (authority, path) = authority_split(rest);
    redacted_account(alloc, scheme, account_split(authority), path)
}

/// A URL with `<redacted>` in place of its password, as git shows it (git-config,
/// "transfer.credentialsInUrl"). `None` if the URL has no password. A password follows the first
/// colon of the account, in a URL with a scheme.
///
/// # Errors
///
/// Only when an allocation fails.
pub fn redacted(alloc: Global, url: &[u8]) -> Result<Option<BString>, AllocError>
    ensures { IfOk result (λ found. option_map bstring_bytes found ≡ redacted url.now) }
{
    let Some((scheme, after)) = cut(url, b':') else {
        return Ok(None);
    };
    if !is_scheme(scheme) {
        return Ok(None);
    }
    match after.strip_prefix(b"//") {
        Some(rest) => redacted_after_scheme(alloc, scheme, rest),
        None => Ok(None),
    }
}
