//! Refspecs as values.
ghost use Rattle.std.specs.Prelude.{◌≡◌, IsTrue, IfOk};
ghost use Rattle.std.specs.Option.{option_copied, option_map};
ghost use Rattle.bstr.specs.Owned.{bstring_bytes};
ghost use Rattle.gixp_hash.specs.ObjectId.{id_of};
ghost use Rattle.gixp_refspec.specs.Spec.{spec, stars, is_id, is_full, is_spec, is_negative, sign_text};

use crate::instruction::{Fetch, Instruction};
use crate::prefixes::push_prefixes;
use bstr::{BStr, BString};
use gixp_hash::ObjectId;
use std::alloc::{AllocError, Global};

/// The sign before the source of a refspec.
#[derive(Clone, Copy, PartialEq, Eq, Debug)]
pub enum Sign {
    /// No sign: a local ref is updated only by a fast-forward.
    Plain,
    /// `+`: a local ref is always updated.
    Force,
    /// `^`: the refs that the source matches are excluded.
    Exclude,
}

/// Whether the sign makes a refspec negative. `gixp_matching` maps the refs that positive refspecs match.
pub fn is_negative(sign: Sign) -> bool
    ensures { result ≡ is_negative sign }
{
    matches!(sign, Sign::Exclude)
}

/// The number of asterisks. `gixp_matching` uses it to find patterns.
#[tactic(auto, unfolding(crate::specs::Spec::stars))]
pub fn stars(text: &[u8]) -> usize
    ensures { result ≡ stars text.now }
{
    text.iter().filter(|byte| **byte == b'*').count()
}

/// Whether the text is `HEAD` or begins with `refs/`. `gixp_matching` checks local names with it.
#[tactic(auto, unfolding(crate::specs::Spec::is_full))]
pub fn is_full(text: &[u8]) -> bool
    ensures { result ≡ is_full text.now }
{
    text == b"HEAD".as_slice() || text.starts_with(b"refs/")
}

/// Whether the text is an object id.
#[tactic(auto, unfolding(crate::specs::Spec::is_id))]
pub(crate) fn is_id(text: &[u8]) -> bool
    ensures { result ≡ is_id text.now }
{
    id_in(text).is_some()
}

/// The object id that this text is. `gixp_matching` maps object ids.
pub fn id_in(text: &[u8]) -> Option<ObjectId>
    ensures { option_map (λ id. id.bytes) result ≡ id_of text.now }
{
    match ObjectId::from_hex(text) {
        Ok(id) => Some(id),
        Err(_) => None,
    }
}

/// A refspec that borrows its text. Two are equal if their signs, sources and destinations are.
#[derive(Clone, Copy, Debug, PartialEq, Eq)]
pub struct RefSpecRef<'a> {
    /// The sign before the source.
    pub sign: Sign,
    /// The source, which is compared with names.
    pub source: &'a [u8],
    /// The destination, from which local names are made.
    pub destination: Option<&'a [u8]>,
    pub ghost valid: { IsTrue (is_spec (spec sign source.now (option_copied destination))) },
}

impl<'a> RefSpecRef<'a> {
    ghost use Rattle.std.specs.Prelude.{◌≡◌, IfOk, OnOk, Ok};
    ghost use Rattle.bstr.specs.Owned.{bstring_bytes};
    ghost use Rattle.gixp_refspec.specs.Spec.{text_of, spec_of};
    ghost use Rattle.gixp_refspec.specs.RefSpec.{value_of, owned_value_of, Instructs};
    ghost use Rattle.gixp_refspec.specs.Matching.{prefixes_of, Covers};
    ghost use Rattle.gixp_refspec.specs.Texts.{texts, AddsSome};

    /// The instruction: a negative refspec excludes refs, one without a destination only fetches, any other one also updates local refs.
    pub fn instruction(&self) -> Instruction<'a>
        ensures { Instructs (value_of self.now) result }
    {
        let src = BStr::new(self.source);
        match (self.sign, self.destination) {
            (Sign::Exclude, _) => Instruction::Fetch(Fetch::Exclude { src }),
            (_, None) => Instruction::Fetch(Fetch::Only { src }),
            (sign, Some(dst)) => Instruction::Fetch(Fetch::AndUpdate {
                src,
                dst: BStr::new(dst),
                allow_non_fast_forward: sign == Sign::Force,
            }),
        }
    }

    /// The same refspec with its own text.
    ///
    /// # Errors
    ///
    /// Only an allocation failure.
    pub fn to_owned(&self, alloc: Global) -> Result<RefSpec, AllocError>
        ensures { IfOk result (λ s. owned_value_of s ≡ value_of self.now) }
    {
        let source = BString::from_slice(alloc, self.source)?;
        let destination = owned(alloc, self.destination)?;
        Ok(RefSpec {
            sign: self.sign,
            source,
            destination,
        })
    }

    /// Appends the prefixes for `ls-refs` (gitprotocol-v2, `ref-prefix`). Each name that the refspec matches begins with one of them.
    ///
    /// | source | prefixes |
    /// |---|---|
    /// | `HEAD`, or a name that begins with `refs/` | the name |
    /// | a short name | its six expansions |
    /// | a pattern | the text before the asterisk |
    /// | an object id, or a negative refspec | none |
    ///
    /// # Errors
    ///
    /// Only an allocation failure. The first of the prefixes may be appended then; nothing else changes.
    pub fn expand_prefixes(&self, alloc: Global, out: &mut Vec<BString>) -> Result<(), AllocError>
        ensures adds { AddsSome result (texts out.old) (prefixes_of (value_of self.now)) (texts out.new) }
        ensures covers { OnOk result (Covers (texts out.new) (value_of self.now)) }
    {
        self.push_prefixes(alloc, out)
    }

    #[tactic(auto, unfolding(crate::specs::Matching::prefixes_of))]
    fn push_prefixes(&self, alloc: Global, out: &mut Vec<BString>) -> Result<(), AllocError>
        ensures { AddsSome result (texts out.old) (prefixes_of (value_of self.now)) (texts out.new) }
    {
        match self.sign {
            Sign::Exclude => Ok(()),
            _ => push_prefixes(alloc, out, self.source),
        }
    }

    /// The text of the refspec: the sign, the source, and after a colon the destination, if there is one. It reads as the same refspec.
    ///
    /// # Errors
    ///
    /// Only an allocation failure.
    pub fn to_bstring(&self, alloc: Global) -> Result<BString, AllocError>
        ensures text { IfOk result (λ t. bstring_bytes t ≡ text_of (value_of self.now)) }
        ensures reads { IfOk result (λ t. spec_of (bstring_bytes t) ≡ Ok (value_of self.now)) }
    {
        self.written(alloc)
    }

    fn written(&self, alloc: Global) -> Result<BString, AllocError>
        ensures { IfOk result (λ t. bstring_bytes t ≡ text_of (value_of self.now)) }
    {
        let mut text = Vec::new(alloc);
        text.extend_from_slice(sign_text(self.sign))?;
        text.extend_from_slice(self.source)?;
        if let Some(destination) = self.destination {
            text.push(b':')?;
            text.extend_from_slice(destination)?;
        }
        Ok(BString::new(text))
    }
}

fn sign_text(sign: Sign) -> &'static [u8]
    ensures { result.now ≡ sign_text sign }
{
    match sign {
        Sign::Plain => b"",
        Sign::Force => b"+",
        Sign::Exclude => b"^",
    }
}

fn owned(alloc: Global, text: Option<&[u8]>) -> Result<Option<BString>, AllocError>
    ensures { IfOk result (λ o. option_map bstring_bytes o ≡ option_copied text.entry) }
{
    match text {
        None => Ok(None),
        Some(text) => Ok(Some(BString::from_slice(alloc, text)?)),
    }
}

/// A refspec that owns its text. Two are equal if their signs, sources and destinations are.
#[derive(Debug, Drop, PartialEq, Eq)]
pub struct RefSpec {
    sign: Sign,
    source: BString,
    destination: Option<BString>,
    pub ghost valid: { IsTrue (is_spec (spec sign (bstring_bytes source) (option_map bstring_bytes destination))) },
}

impl RefSpec {
    ghost use Rattle.std.specs.Prelude.{◌≡◌, IfOk, Ok};
    ghost use Rattle.bstr.specs.Owned.{bstring_bytes};
    ghost use Rattle.gixp_refspec.specs.Spec.{text_of, spec_of};
    ghost use Rattle.gixp_refspec.specs.RefSpec.{value_of, owned_value_of};

    /// The same refspec, borrowing this one's text.
    pub fn to_ref(&self) -> RefSpecRef<'_>
        ensures { value_of result ≡ owned_value_of self.now }
    {
        RefSpecRef {
            sign: self.sign,
            source: self.source.as_bytes(),
            destination: borrowed(&self.destination),
        }
    }

    /// The text of the refspec: the sign, the source, and after a colon the destination, if there is one. It reads as the same refspec.
    ///
    /// # Errors
    ///
    /// Only an allocation failure.
    pub fn to_bstring(&self, alloc: Global) -> Result<BString, AllocError>
        ensures text { IfOk result (λ t. bstring_bytes t ≡ text_of (owned_value_of self.now)) }
        ensures reads { IfOk result (λ t. spec_of (bstring_bytes t) ≡ Ok (owned_value_of self.now)) }
    {
        self.to_ref().to_bstring(alloc)
    }
}

impl Clone for RefSpec {
    ghost use Rattle.std.specs.Prelude.{◌≡◌};
    ghost use Rattle.gixp_refspec.specs.RefSpec.{owned_value_of};

    ghost is_clone = { λ s t. owned_value_of t ≡ owned_value_of s };

    fn clone(&self) -> Result<RefSpec, AllocError> {
        Ok(RefSpec {
            sign: self.sign,
            source: self.source.clone()?,
            destination: self.destination.clone()?,
        })
    }
}

fn borrowed(text: &Option<BString>) -> Option<&[u8]>
    ensures { option_copied result ≡ option_map bstring_bytes text.now }
{
    match text {
        None => None,
        Some(text) => Some(text.as_bytes()),
    }
}
