//! The user's configuration, as `git config --list --null` prints it.
ghost use Rattle.std.specs.Prelude.{◌≡◌, ◌++◌, ◌==◌, IfOk, OnOk, map};
ghost use Rattle.std.specs.Char.{is_ascii_digit};
ghost use Rattle.std.specs.List.{flat_map, list_all, slice_split};
ghost use Rattle.bstr.specs.BStr.{bstr_bytes};
ghost use Rattle.std.specs.Option.{option_map};
ghost use Rattle.bstr.specs.Owned.{bstring_bytes};
ghost use Rattle.gixp_remote_rules.specs.Config.{entry_of, entries_of, settings_of, entry_value, settings_in, last_named, text_of, value_of};
ghost use Rattle.gixp_remote_rules.specs.Config.{without_sign, number_is_true, text_is_true, is_true};

use crate::text::{find_byte, is_word};
use bstr::{BStr, BString};
use std::alloc::{AllocError, Global};

/// A configuration entry.
#[derive(Debug, Drop, PartialEq, Eq)]
pub struct ConfigEntry {
    /// The name. Its section and its key are in lower case.
    pub name: BString,
    /// The value. `None` if the entry has only a name.
    pub value: Option<BString>,
}

/// The user's configuration, in git's order.
#[derive(Debug, Drop)]
pub struct Settings {
    entries: Vec<ConfigEntry>,
}

// An entry: its name, a line feed, and its value.
fn entry_of(alloc: Global, text: &[u8]) -> Result<ConfigEntry, AllocError>
    ensures { IfOk result (λ s. entry_value s ≡ entry_of text.now) }
{
    match find_byte(text, b'\n') {
        Some(at) => Ok(ConfigEntry {
            name: BString::from_slice(alloc, &text[..at])?,
            value: Some(BString::from_slice(alloc, &text[at + 1..])?),
        }),
        None => Ok(ConfigEntry {
            name: BString::from_slice(alloc, text)?,
            value: None,
        }),
    }
}

impl ConfigEntry {
    /// The value. It is empty if the entry has only a name.
    pub fn text(&self) -> &[u8]
        ensures { result.now ≡ text_of (entry_value self.now) }
    {
        match &self.value {
            Some(value) => value.as_bytes(),
            None => b"",
        }
    }
}

fn push_entry(alloc: Global, entries: &mut Vec<ConfigEntry>, text: &[u8]) -> Result<(), AllocError>
    ensures { OnOk result (map entry_value entries.new.items ≡ map entry_value entries.old.items ++ entries_of text.now) }
{
    if !text.is_empty() {
        entries.push(entry_of(alloc, text)?)?;
    }
    Ok(())
}

pub(crate) fn pieces_of(alloc: Global, text: &[u8]) -> Result<Vec<BStr<'_>>, AllocError>
    ensures { IfOk result (λ pieces. map bstr_bytes pieces.items ≡ slice_split (λ b. b == 0) text.now) }
{
    text.split(|b| *b == 0).map(BStr::new).collect(alloc)
}

// The entries of all pieces that aren't empty.
fn entries_of(alloc: Global, pieces: &[BStr<'_>]) -> Result<Vec<ConfigEntry>, AllocError>
    ensures { IfOk result (λ entries. map entry_value entries.items ≡ flat_map entries_of (map bstr_bytes pieces.now)) }
{
    let mut entries = Vec::new(alloc);
    'pieces: for piece in pieces {
        push_entry(alloc, &mut entries, piece.as_bytes())?;
    }
    Ok(entries)
}

impl Settings {
    /// Parses a text in which a NUL byte ends each entry.
    ///
    /// # Errors
    ///
    /// Only when an allocation fails.
    pub fn read(alloc: Global, text: &[u8]) -> Result<Settings, AllocError>
        ensures { IfOk result (λ settings. settings_in settings ≡ settings_of text.now) }
    {
        let pieces = pieces_of(alloc, text)?;
        let entries = entries_of(alloc, &pieces)?;
        Ok(Settings { entries })
    }

    /// The last entry of this name: it overrides the others.
    pub fn last(&self, name: &[u8]) -> Option<&ConfigEntry>
        ensures { option_map (λ s. entry_value s.now) result ≡ last_named (settings_in self.now) name.now }
    {
        let mut found = None;
        'entries: for entry in &self.entries {
            if entry.name.as_bytes() == name {
                found = Some(entry);
            }
        }
        found
    }

    /// The value of a name. It is empty if the entry has only a name.
    pub fn value(&self, name: &[u8]) -> Option<&[u8]>
        ensures { option_map (λ v. v.now) result ≡ value_of (settings_in self.now) name.now }
    {
        match self.last(name) {
            Some(entry) => Some(entry.text()),
            None => None,
        }
    }

    /// All entries, in git's order.
    pub fn entries(&self) -> &[ConfigEntry]
        ensures { map entry_value result.now ≡ settings_in self.now }
    {
        &self.entries
    }
}

fn are_digits(value: &[u8]) -> bool
    ensures { result ≡ list_all is_ascii_digit value.now }
{
    value.iter().all(|b| b.is_ascii_digit())
}

fn are_zeros(value: &[u8]) -> bool
    ensures { result ≡ list_all (λ b. b == 48) value.now }
{
    value.iter().all(|b| *b == b'0')
}

fn without_sign(value: &[u8]) -> &[u8]
    ensures { result.now ≡ without_sign value.now }
{
    match value {
        [first, rest @ ..] => {
            if *first == b'-' || *first == b'+' {
                rest
            } else {
                value
            }
        }
        [] => value,
    }
}

// Whether a number isn't zero. `None` if the text isn't a number.
fn number_is_true(value: &[u8]) -> Option<bool>
    ensures { result ≡ number_is_true value.now }
{
    let digits = without_sign(value);
    if !digits.is_empty() && are_digits(digits) {
        Some(!are_zeros(digits))
    } else {
        None
    }
}

pub(crate) fn text_is_true(value: &[u8]) -> Option<bool>
    ensures { result ≡ text_is_true value.now }
{
    if is_word(value, b"true") || is_word(value, b"yes") || is_word(value, b"on") {
        return Some(true);
    }
    if value == b"".as_slice()
        || is_word(value, b"false")
        || is_word(value, b"no")
        || is_word(value, b"off")
    {
        return Some(false);
    }
    number_is_true(value)
}

/// Whether an entry is true for git (git-config, "Values"). `None` if it isn't a boolean.
pub fn is_true(setting: &ConfigEntry) -> Option<bool>
    ensures { result ≡ is_true (entry_value setting.now).value }
{
    match &setting.value {
        Some(value) => text_is_true(value.as_bytes()),
        None => Some(true),
    }
}
