//! The rules for ref names (git-check-ref-format).
ghost use Rattle.std.specs.Prelude.{◌≡◌, IsTrue};
ghost use Rattle.std.specs.List.{list_all};
ghost use Rattle.gixp_refspec.specs.Name.{is_name_byte, is_component, occurs, components, is_name, is_partial_name};
ghost use Rattle.bstr.specs.BStr.{bstr_bytes};
ghost use Rattle.bstr.specs.Owned.{bstring_bytes};

use crate::parse::Error;
use bstr::{BStr, BString, ByteSlice};
use std::alloc::AllocError;

// The bytes that a name must not have, besides blanks and control characters.
const FORBIDDEN: &[u8] = b"~^:?[\\";

#[tactic(auto, unfolding(crate::specs::Name::is_name_byte))]
fn is_name_byte(byte: u8) -> bool
    ensures { result ≡ is_name_byte byte }
{
    byte > b' ' && byte != 127 && !FORBIDDEN.contains(&byte)
}

#[tactic(auto, unfolding(crate::specs::Name::is_component))]
// Whether the bytes are a valid part between two slashes.
fn is_component(part: &[u8]) -> bool
    ensures { result ≡ is_component part.now }
{
    !part.is_empty() && !part.starts_with(b".") && !part.ends_with(b".lock")
}

// Whether the text occurs in the name.
fn has_text(name: &[u8], text: &[u8]) -> bool
    ensures { result ≡ occurs text.now name.now }
{
    name.contains_str(text)
}

fn has_name_bytes(name: &[u8]) -> bool
    ensures { result ≡ list_all is_name_byte name.now }
{
    name.iter().all(|byte| is_name_byte(*byte))
}

fn has_components(name: &[u8]) -> bool
    ensures { result ≡ list_all is_component (components name.now) }
{
    name.split(|byte| *byte == b'/')
        .all(|part| is_component(part))
}

#[tactic(auto, unfolding(crate::specs::Name::is_name))]
/// Whether the bytes are a valid ref name, where an asterisk is an ordinary byte.
pub(crate) fn is_name(name: &[u8]) -> bool
    ensures { result ≡ is_name name.now }
{
    name != b"@".as_slice()
        && !name.ends_with(b".")
        && !has_text(name, b"..")
        && !has_text(name, b"@{")
        && has_name_bytes(name)
        && has_components(name)
}

/// A valid ref name (git-check-ref-format, with `--allow-onelevel`) without an asterisk. It may have one component, such as `main`.
#[derive(Debug, Drop, PartialEq, Eq)]
pub struct PartialName {
    name: BString,
    pub ghost valid: { IsTrue (is_partial_name (bstring_bytes name)) },
}

impl PartialName {
    ghost use Rattle.std.specs.Prelude.{◌≡◌};
    ghost use Rattle.gixp_refspec.specs.PartialName.{GivesName, name_bytes};

    /// Checks the rules for ref names. It allocates nothing.
    ///
    /// # Errors
    ///
    /// `InvalidName` where the name breaks a rule or has an asterisk. The name is dropped.
    pub fn new(name: BString) -> Result<PartialName, Error>
        ensures { GivesName (bstring_bytes name) result }
    {
        if is_partial_name(name.as_bytes()) {
            Ok(PartialName { name })
        } else {
            Err(Error::InvalidName)
        }
    }

    /// The name as bytes.
    pub fn as_bstr(&self) -> BStr<'_>
        ensures name { bstr_bytes result ≡ name_bytes self.now }
        ensures valid { IsTrue (is_partial_name (bstr_bytes result)) }
    {
        self.name.as_bstr()
    }
}

impl Clone for PartialName {
    ghost use Rattle.std.specs.Prelude.{◌≡◌};
    ghost use Rattle.gixp_refspec.specs.PartialName.{name_bytes};

    ghost is_clone = { λ s t. name_bytes t ≡ name_bytes s };

    fn clone(&self) -> Result<PartialName, AllocError> {
        Ok(PartialName {
            name: self.name.clone()?,
        })
    }
}

/// Whether the bytes are a valid ref name without an asterisk. Crates above check local names with it.
#[tactic(auto, unfolding(crate::specs::Name::is_partial_name))]
pub fn is_partial_name(name: &[u8]) -> bool
    ensures { result ≡ is_partial_name name.now }
{
    is_name(name) && !name.contains(&b'*')
}
