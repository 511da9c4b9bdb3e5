//! Capability lists of a server.
ghost use Rattle.std.specs.Prelude.{◌≡◌, [], ◌∷◌, ◌++◌, map, IfOk, OnOk, OnErr, MatchResult};
ghost use Rattle.std.specs.List.{list_any};
ghost use Rattle.std.specs.Option.{option_map};
ghost use Rattle.bstr.specs.Owned.{bstring_bytes};
ghost use Rattle.bstr.specs.BStr.{bstr_bytes};
ghost use Rattle.gixp_capabilities.specs.Capabilities.{capability_of, capability_of_line, capabilities_of_words, capabilities_of_line, capabilities_of_lines, IsOfLine, first_named, has_named, is_text, words_of, values_of, supports_word};
ghost use Rattle.gixp_capabilities.specs.Capability.{capability_value, capabilities_left};
ghost use Rattle.gixp_capabilities.specs.declared.client.Error.TheVariants.{Memory};

use crate::client;
use crate::text::cut;
use bstr::{BStr, BString, ByteSlice};
use gixp_utils::without_line_end;
use std::alloc::{AllocError, Global};
use std::marker::Model;

/// The capabilities of a server: a list of names, some of which have a value (gitprotocol-pack, "Reference Discovery";
/// gitprotocol-v2, "Capability Advertisement").
///
/// A name may occur more than once.
#[derive(Debug, Drop)]
pub struct Capabilities {
    // Each has a name, and `=` with a value if it has one.
    lines: Vec<BString>,
}

impl Model for Capabilities {
    ghost use Rattle.std.specs.Prelude.{List, map};
    ghost use Rattle.bstr.specs.Owned.{bstring_bytes};
    ghost use Rattle.gixp_capabilities.specs.Capabilities.{CapabilityValue, capability_of};

    ghost Value = { List CapabilityValue };

    ghost view = { λ c. map (λ s. capability_of (bstring_bytes s)) c.lines.items };
}

impl Clone for Capabilities {
    ghost is_clone = { λ s t. t ≡ s };

    fn clone(&self) -> Result<Capabilities, AllocError> {
        let mut copy = Capabilities::empty(*self.lines.allocator());
        for line in &self.lines {
            copy.push(line.as_bytes())?;
        }
        Ok(copy)
    }
}

impl Capabilities {
    /// An empty list.
    pub fn empty(alloc: Global) -> Capabilities
        ensures { result ≡ [] }
    {
        Capabilities {
            lines: Vec::new(alloc),
        }
    }

    /// The capabilities of the first ref line, and the offset of its first NUL. They follow this NUL, separated by
    /// blanks (gitprotocol-pack, "Reference Discovery"). One LF at the end of the line is ignored.
    ///
    /// # Errors
    ///
    /// `MissingDelimitingNullByte` where the line has no NUL; otherwise only `Memory`.
    pub fn from_bytes(alloc: Global, bytes: &[u8]) -> Result<(Capabilities, usize), client::Error>
        ensures { IsOfLine (capabilities_of_line bytes.now) result }
    {
        let (front, Some(text)) = cut(bytes, 0) else {
            return Err(client::Error::MissingDelimitingNullByte);
        };
        let mut found = Capabilities::empty(alloc);
        match found.push_words(without_line_end(text)) {
            Ok(()) => Ok((found, front.len())),
            Err(_) => Err(client::Error::Memory),
        }
    }

    /// The capabilities of these lines, one on each line (gitprotocol-v2, "Capability Advertisement"). One LF at the
    /// end of a line is ignored. An empty line is a capability with an empty name.
    ///
    /// # Errors
    ///
    /// Only `Memory`.
    pub fn from_lines(alloc: Global, lines: &[BString]) -> Result<Capabilities, client::Error>
        ensures { MatchResult result (λ found. found ≡ capabilities_of_lines (map bstring_bytes lines.now)) (λ e. e ≡ Memory) }
    {
        let mut found = Capabilities::empty(alloc);
        for line in lines {
            if found.push_line(line.as_bytes()).is_err() {
                return Err(client::Error::Memory);
            }
        }
        Ok(found)
    }

    /// Iterates over the capabilities in their order.
    pub fn iter(&self) -> CapabilityIter<'_>
        ensures { capabilities_left result ≡ self.now }
    {
        CapabilityIter {
            lines: self.lines.as_slice(),
        }
    }

    /// Whether the list has a capability of this name.
    pub fn contains(&self, name: &[u8]) -> bool
        ensures { result ≡ has_named name.now self.now }
    {
        self.iter()
            .any(|capability| capability.name.as_bytes() == name)
    }

    /// The first capability of this name.
    pub fn capability(&self, name: &[u8]) -> Option<Capability<'_>>
        ensures { option_map capability_value result ≡ first_named name.now self.now }
    {
        self.iter()
            .find(|capability| capability.name.as_bytes() == name)
    }

    /// Appends the capability of a line. One LF at its end is ignored.
    ///
    /// # Errors
    ///
    /// An allocation failed. The list is unchanged.
    pub fn push_line(&mut self, line: &[u8]) -> Result<(), AllocError>
        ensures ok { OnOk result (self.new ≡ self.old ++ capability_of_line line.now ∷ []) }
        ensures err { OnErr result (self.new ≡ self.old) }
    {
        self.push(without_line_end(line))
    }

    // Appends the capability of this text. If an allocation fails, nothing changes.
    fn push(&mut self, text: &[u8]) -> Result<(), AllocError>
        ensures ok { OnOk result (self.new ≡ self.old ++ capability_of text.now ∷ []) }
        ensures err { OnErr result (self.new ≡ self.old) }
    {
        let line = BString::from_slice(*self.lines.allocator(), text)?;
        self.lines.push(line)?;
        Ok(())
    }

    // Appends the capabilities of a text, which are separated by blanks.
    fn push_words(&mut self, text: &[u8]) -> Result<(), AllocError>
        ensures { OnOk result (self.new ≡ self.old ++ capabilities_of_words text.now) }
    {
        let mut rest = Some(text);
        while let Some(text) = rest {
            let (word, others) = cut(text, b' ');
            if !word.is_empty() {
                self.push(word)?;
            }
            rest = others;
        }
        Ok(())
    }
}

/// A capability of a server, borrowed from a list.
#[derive(Clone, Copy, Debug)]
pub struct Capability<'a> {
    name: BStr<'a>,
    value: Option<BStr<'a>>,
}

impl<'a> Capability<'a> {
    /// The name: the text before the first `=`.
    pub fn name(&self) -> BStr<'a>
        ensures { bstr_bytes result ≡ (capability_value self.now).name }
    {
        self.name
    }

    /// The value: the text after the first `=`, if there is one.
    pub fn value(&self) -> Option<BStr<'a>>
        ensures { option_map bstr_bytes result ≡ (capability_value self.now).value }
    {
        self.value
    }

    /// The pieces of the value between blanks, empty ones included. `None` without a value.
    ///
    /// # Errors
    ///
    /// An allocation failed.
    pub fn values(&self, alloc: Global) -> Result<Option<Vec<BStr<'a>>>, AllocError>
        ensures { IfOk result (λ found. option_map (λ v. map bstr_bytes v.items) found ≡ values_of (capability_value self.now).value) }
    {
        match self.value {
            None => Ok(None),
            Some(value) => Ok(Some(words(alloc, value.as_bytes())?)),
        }
    }

    /// Whether `word` is one of the pieces of the value between blanks. `None` without a value.
    pub fn supports(&self, word: &[u8]) -> Option<bool>
        ensures { result ≡ supports_word word.now (capability_value self.now).value }
    {
        match self.value {
            None => None,
            Some(value) => Some(has_word(value.as_bytes(), word)),
        }
    }
}

// The pieces of a text between blanks.
fn words<'a>(alloc: Global, text: &'a [u8]) -> Result<Vec<BStr<'a>>, AllocError>
    ensures { IfOk result (λ found. map bstr_bytes found.items ≡ words_of text.now) }
{
    text.split(|byte| *byte == b' ')
        .map(BStr::new)
        .collect(alloc)
}

// Whether `word` is one of the pieces of a text between blanks.
fn has_word(text: &[u8], word: &[u8]) -> bool
    ensures { result ≡ list_any (λ w. is_text w word.now) (words_of text.now) }
{
    text.split(|byte| *byte == b' ').any(|piece| piece == word)
}

fn capability_in(text: &[u8]) -> Capability<'_>
    ensures { capability_value result ≡ capability_of text.now }
{
    match cut(text, b'=') {
        (name, None) => Capability {
            name: BStr::new(name),
            value: None,
        },
        (name, Some(value)) => Capability {
            name: BStr::new(name),
            value: Some(BStr::new(value)),
        },
    }
}

/// An iterator over the capabilities of a list, in their order.
#[derive(Clone, Copy, Debug)]
pub struct CapabilityIter<'a> {
    lines: &'a [BString],
}

impl<'a> Iterator for CapabilityIter<'a> {
    ghost use Rattle.std.specs.Iterator.{YieldsFirstBy, item_count};
    ghost use Rattle.gixp_capabilities.specs.Capability.{capability_value, capabilities_left};

    type Item = Capability<'a>;

    ghost next_gives = { YieldsFirstBy capability_value capabilities_left };

    ghost remaining = { item_count capabilities_left };

    fn next(&mut self) -> Option<Capability<'a>> {
        let (first, others) = self.lines.split_first()?;
        self.lines = others;
        Some(capability_in(first.as_bytes()))
    }
}
