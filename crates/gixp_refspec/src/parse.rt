//! Reading a refspec.
ghost use Rattle.std.specs.Prelude.{◌≡◌, ◌≤◌, length, drop, MatchResult, Ok, Err};
ghost use Rattle.std.specs.Option.{option_copied};
ghost use Rattle.std.specs.List.{before_first, after_first, position_or_len, position};
ghost use Rattle.bstr.specs.BStr.{bstr_bytes};
ghost use Rattle.gixp_refspec.specs.Spec.{spec, is_colon, source_in, destination_in, parts_of, negative_fault, source_fault, pair_fault, fault_in, spec_of};
ghost use Rattle.gixp_refspec.specs.RefSpec.{value_of};

use crate::name::is_name;
use crate::spec::{RefSpecRef, Sign, is_full, is_id, stars};
use bstr::BStr;
use thiserror::Error as DeriveError;

/// The operation that a refspec is for.
#[derive(Clone, Copy, PartialEq, Eq, Debug)]
pub enum Operation {
    /// Fetch from a remote.
    Fetch,
}

/// Why a text is not a refspec. If there are several reasons, a colon or an object id in a negative refspec is reported
/// first, then asterisks, then names.
#[derive(Clone, Copy, Debug, PartialEq, Eq, DeriveError)]
pub enum Error {
    /// A negative refspec has a colon.
    #[error("NegativeWithDestination")]
    NegativeWithDestination,
    /// A negative refspec is an object id.
    #[error("NegativeObjectHash")]
    NegativeObjectHash,
    /// A negative refspec is a short name: it is neither `HEAD` nor a pattern, and doesn't begin with `refs/`.
    #[error("NegativePartialName")]
    NegativePartialName,
    /// Only one of source and destination has an asterisk.
    #[error("PatternUnbalanced")]
    PatternUnbalanced,
    /// The source or the destination has two or more asterisks.
    #[error("PatternUnsupported")]
    PatternUnsupported,
    /// The source or the destination is not a valid ref name (git-check-ref-format).
    #[error("InvalidName")]
    InvalidName,
}

// The offset of the first colon.
fn colon_in(body: &[u8]) -> Option<usize>
    ensures { result ≡ position is_colon body.now }
{
    body.iter().position(|byte| *byte == b':')
}

// The offset of the first colon, or the end.
fn colon_at(body: &[u8]) -> usize
    ensures place { result ≡ position_or_len is_colon body.now }
    ensures within { result ≤ length body.now }
{
    colon_in(body).unwrap_or(body.len())
}

fn before_colon(body: &[u8]) -> &[u8]
    ensures { result.now ≡ before_first is_colon body.now }
{
    &body[..colon_at(body)]
}

fn after_colon(body: &[u8]) -> &[u8]
    ensures { result.now ≡ after_first is_colon body.now }
{
    let at = colon_at(body);
    if at < body.len() {
        &body[at + 1..]
    } else {
        b""
    }
}

// The source of a positive refspec, which has no sign here.
fn source_in(body: &[u8]) -> &[u8]
    ensures { result.now ≡ source_in body.now }
{
    let source = before_colon(body);
    if source.is_empty() { b"HEAD" } else { source }
}

// The destination of a positive refspec, which has no sign here.
fn destination_in(body: &[u8]) -> Option<&[u8]>
    ensures { option_copied result ≡ destination_in body.now }
{
    let destination = after_colon(body);
    if destination.is_empty() {
        None
    } else {
        Some(destination)
    }
}

// Why a negative refspec is invalid.
#[tactic(auto, unfolding(crate::specs::Spec::negative_fault))]
fn negative_fault(source: &[u8]) -> Option<Error>
    ensures { result ≡ negative_fault source.now }
{
    if source.contains(&b':') {
        Some(Error::NegativeWithDestination)
    } else if is_id(source) {
        Some(Error::NegativeObjectHash)
    } else if stars(source) > 1 {
        Some(Error::PatternUnsupported)
    } else if !is_name(source) {
        Some(Error::InvalidName)
    } else if is_full(source) || stars(source) == 1 {
        None
    } else {
        Some(Error::NegativePartialName)
    }
}

// Why a positive refspec without a destination is invalid.
#[tactic(auto, unfolding(crate::specs::Spec::source_fault))]
fn source_fault(source: &[u8]) -> Option<Error>
    ensures { result ≡ source_fault source.now }
{
    if stars(source) > 1 {
        Some(Error::PatternUnsupported)
    } else if !is_name(source) {
        Some(Error::InvalidName)
    } else {
        None
    }
}

// Why a positive refspec with a destination is invalid.
#[tactic(auto, unfolding(crate::specs::Spec::pair_fault))]
fn pair_fault(source: &[u8], destination: &[u8]) -> Option<Error>
    ensures { result ≡ pair_fault source.now destination.now }
{
    if stars(source) > 1 || stars(destination) > 1 {
        Some(Error::PatternUnsupported)
    } else if stars(source) != stars(destination) {
        Some(Error::PatternUnbalanced)
    } else if !is_name(source) || !is_name(destination) {
        Some(Error::InvalidName)
    } else {
        None
    }
}

// Why the parts of a refspec are invalid.
fn fault_in(sign: Sign, source: &[u8], destination: Option<&[u8]>) -> Option<Error>
    ensures { result ≡ fault_in sign source.now (option_copied destination.entry) }
{
    match (sign, destination) {
        (Sign::Exclude, None) => negative_fault(source),
        (Sign::Exclude, Some(_)) => Some(Error::NegativeWithDestination),
        (_, None) => source_fault(source),
        (_, Some(destination)) => pair_fault(source, destination),
    }
}

struct Parts<'a> {
    sign: Sign,
    source: &'a [u8],
    destination: Option<&'a [u8]>,
}

// The text after its sign.
fn after_sign(text: &[u8]) -> &[u8]
    requires { 1 ≤ length text.now }
    ensures { result.now ≡ drop 1 text.now }
{
    &text[1..]
}

// Splits a text by its sign and its first colon.
#[tactic(auto, unfolding(crate::specs::Spec::parts_of))]
fn parts_of(text: &[u8]) -> Parts<'_>
    ensures { spec result.sign result.source.now (option_copied result.destination) ≡ parts_of text.now }
{
    if text.starts_with(b"^") {
        Parts {
            sign: Sign::Exclude,
            source: after_sign(text),
            destination: None,
        }
    } else if text.starts_with(b"+") {
        let body = after_sign(text);
        Parts {
            sign: Sign::Force,
            source: source_in(body),
            destination: destination_in(body),
        }
    } else {
        Parts {
            sign: Sign::Plain,
            source: source_in(text),
            destination: destination_in(text),
        }
    }
}

/// Reads a refspec (git-fetch, "<refspec>"). It allocates nothing; the result borrows the text.
///
/// A text that begins with `^` is a negative refspec, and the rest is its source. Any other text is an optional `+`, a
/// source, and after the first colon a destination. An empty source means `HEAD`, an empty destination means none. A
/// pattern without a destination is accepted; it maps to no local name.
///
/// # Errors
///
/// The first [`Error`] that applies.
pub fn parse<'a>(spec: BStr<'a>, operation: Operation) -> Result<RefSpecRef<'a>, Error>
    ensures { MatchResult result (λ s. spec_of (bstr_bytes spec.entry) ≡ Ok (value_of s)) (λ e. spec_of (bstr_bytes spec.entry) ≡ Err e) }
{
    let Operation::Fetch = operation;
    let Parts {
        sign,
        source,
        destination,
    } = parts_of(spec.as_bytes());
    match fault_in(sign, source, destination) {
        Some(fault) => Err(fault),
        None => Ok(RefSpecRef {
            sign,
            source,
            destination,
        }),
    }
}
