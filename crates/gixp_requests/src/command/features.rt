//! The features that a client requests of those that a server offers.
ghost use Rattle.std.specs.Prelude.{◌≡◌, [], ◌∷◌, ◌++◌, map, filter, OnOk, IfOk};
ghost use Rattle.std.specs.Option.{option_copied};
ghost use Rattle.gixp_requests.specs.Feature.{feature_values};
ghost use Rattle.gixp_requests.specs.Command.{WordEntry, entry_of, entries_of, words_of};
ghost use Rattle.gixp_requests.specs.Offers.{has_other, is_offered, supports, plain_feature};

use crate::command::{Command, CommandTable, Feature};
use gixp_capabilities::Capabilities;
use gixp_packetline::Protocol;
use std::alloc::{AllocError, Global};

impl CommandTable {
    ghost use Rattle.gixp_requests.specs.Command.{table_of};
    ghost use Rattle.gixp_requests.specs.Offers.{v2_words, default_features};

    fn v2_words(&self, command: Command) -> &'static [&'static str]
        ensures { words_of result.now ≡ v2_words (table_of self.now) command }
    {
        match command {
            Command::LsRefs => self.v2_ls_refs,
            Command::Fetch => self.v2_fetch,
        }
    }

    /// The features that a client requests by default, of those that the server offers: without values, in the order of the table.
    ///
    /// Under version 2 the server offers them in the value of the command's capability (gitprotocol-v2, "Command
    /// Request"). Under versions 0 and 1 it offers them as capabilities. An entry that names another capability isn't
    /// requested if the server has that one. `ls-refs` doesn't exist there, and has no features.
    ///
    /// # Errors
    ///
    /// Only an allocation failure.
    pub fn default_features(
        &self,
        alloc: Global,
        command: Command,
        version: Protocol,
        capabilities: &Capabilities,
    ) -> Result<Vec<Feature>, AllocError>
        ensures { IfOk result (λ features. feature_values features.items
            ≡ default_features (table_of self.now) command version capabilities.now) }
    {
        if version == Protocol::V2 {
            return supported(alloc, self.v2_words(command), capabilities, command);
        }
        match command {
            Command::LsRefs => Ok(Vec::new(alloc)),
            Command::Fetch => offered(alloc, self.v1_fetch, capabilities),
        }
    }
}

// Whether the value of the command's capability has this word.
pub(crate) fn supports(capabilities: &Capabilities, command: Command, word: &str) -> bool
    ensures { result ≡ supports capabilities.now command word.now }
{
    match capabilities.capability(command.as_str().as_bytes()) {
        Some(capability) => capability.supports(word.as_bytes()).unwrap_or(false),
        None => false,
    }
}

// Whether the server has the capability that excludes an entry.
fn has_other(capabilities: &Capabilities, other: Option<&'static str>) -> bool
    ensures { result ≡ has_other capabilities.now (option_copied other.entry) }
{
    match other {
        Some(name) => capabilities.contains(name.as_bytes()),
        None => false,
    }
}

// Whether an entry is requested.
fn is_offered(capabilities: &Capabilities, entry: &(&'static str, Option<&'static str>)) -> bool
    ensures { result ≡ is_offered capabilities.now (entry_of entry.now) }
{
    capabilities.contains(entry.0.as_bytes()) && !has_other(capabilities, entry.1)
}

fn push_feature(features: &mut Vec<Feature>, name: &'static str) -> Result<(), AllocError>
    ensures { OnOk result (feature_values features.new.items ≡ feature_values features.old.items ++ plain_feature name.now ∷ []) }
{
    features.push((name, None))?;
    Ok(())
}

// Appends a word if the command's capability has it.
fn push_supported(
    features: &mut Vec<Feature>,
    word: &'static str,
    capabilities: &Capabilities,
    command: Command,
) -> Result<(), AllocError>
    ensures { OnOk result (feature_values features.new.items ≡ feature_values features.old.items
        ++ map plain_feature (filter (supports capabilities.now command) (word.now ∷ []))) }
{
    if supports(capabilities, command, word) {
        push_feature(features, word)?;
    }
    Ok(())
}

// The words that the command's capability has.
fn supported(
    alloc: Global,
    words: &[&'static str],
    capabilities: &Capabilities,
    command: Command,
) -> Result<Vec<Feature>, AllocError>
    ensures { IfOk result (λ features. feature_values features.items
        ≡ map plain_feature (filter (supports capabilities.now command) (words_of words.now))) }
{
    let mut features = Vec::new(alloc);
    for word in words {
        push_supported(&mut features, word, capabilities, command)?;
    }
    Ok(features)
}

// Appends the word of an entry if it is requested.
fn push_offered(
    features: &mut Vec<Feature>,
    entry: &(&'static str, Option<&'static str>),
    capabilities: &Capabilities,
) -> Result<(), AllocError>
    ensures { OnOk result (feature_values features.new.items ≡ feature_values features.old.items
        ++ map plain_feature (map (λ (e : WordEntry). e.word) (filter (is_offered capabilities.now) (entry_of entry.now ∷ [])))) }
{
    if is_offered(capabilities, entry) {
        push_feature(features, entry.0)?;
    }
    Ok(())
}

// The words of the entries that are requested.
fn offered(
    alloc: Global,
    entries: &[(&'static str, Option<&'static str>)],
    capabilities: &Capabilities,
) -> Result<Vec<Feature>, AllocError>
    ensures { IfOk result (λ features. feature_values features.items
        ≡ map plain_feature (map (λ (e : WordEntry). e.word) (filter (is_offered capabilities.now) (entries_of entries.now)))) }
{
    let mut features = Vec::new(alloc);
    for entry in entries {
        push_offered(&mut features, entry, capabilities)?;
    }
    Ok(features)
}
