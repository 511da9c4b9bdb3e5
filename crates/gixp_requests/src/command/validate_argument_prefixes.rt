//! Whether a request is valid for a server.
ghost use Rattle.std.specs.Prelude.{◌≡◌, map, find, nat_eq};
ghost use Rattle.std.specs.List.{list_any, starts_with};
ghost use Rattle.std.specs.Option.{option_copied, option_map};
ghost use Rattle.bstr.specs.Owned.{bstring_bytes};
ghost use Rattle.gixp_requests.specs.Feature.{feature_value, feature_values};
ghost use Rattle.gixp_requests.specs.Command.{command_name, words_of};
ghost use Rattle.gixp_requests.specs.Offers.{bad_argument_of, IsRefusedBy, begins_with_any, bad_argument, may_ask, bad_feature};

use crate::command::features::supports;
use crate::command::{Command, CommandTable, Feature};
use bstr::BString;
use gixp_capabilities::Capabilities;
use gixp_packetline::Protocol;
use std::alloc::{AllocError, AllocFailed, Global};
use thiserror::Error as DeriveError;

/// Why a request is invalid. Nothing of it is written.
#[derive(Debug, Drop, DeriveError)]
pub enum Error {
    /// An argument begins with none of the words that the command allows.
    #[error("UnsupportedArgument")]
    UnsupportedArgument {
        command: &'static str,
        argument: BString,
    },
    /// The server doesn't offer this feature.
    #[error("UnsupportedCapability")]
    UnsupportedCapability {
        command: &'static str,
        feature: &'static str,
    },
    /// An allocation failed.
    #[error("Memory")]
    Memory,
}

impl From<AllocError> for Error {
    ghost use Rattle.gixp_requests.specs.declared.command.validate_argument_prefixes.Error.TheVariants.{Memory};

    ghost from_gives = { λ _ error. error ≡ Memory };

    fn from(_e: AllocError) -> Error {
        Error::Memory
    }
}

impl<T: Drop> From<AllocFailed<T>> for Error {
    ghost use Rattle.gixp_requests.specs.declared.command.validate_argument_prefixes.Error.TheVariants.{Memory};

    ghost from_gives = { λ _ error. error ≡ Memory };

    fn from(_e: AllocFailed<T>) -> Error {
        Error::Memory
    }
}

impl CommandTable {
    ghost use Rattle.gixp_requests.specs.Command.{table_of};
    ghost use Rattle.gixp_requests.specs.Offers.{prefixes_of, validation, AnswersRefusal};

    // The words that an argument of the command may begin with.
    fn prefixes(&self, command: Command) -> &'static [&'static str]
        ensures { words_of result.now ≡ prefixes_of (table_of self.now) command }
    {
        match command {
            Command::LsRefs => self.ls_refs_prefixes,
            Command::Fetch => self.fetch_prefixes,
        }
    }

    /// Checks a request: each argument begins with a word that the table allows for the command. Each feature is
    /// `agent`, a capability of the server, or under version 2 a word of the value of the command's capability
    /// (gitprotocol-v2, "Command Request").
    ///
    /// # Errors
    ///
    /// `UnsupportedArgument` for the first invalid argument, otherwise `UnsupportedCapability` for the first such
    /// feature. `Memory` where the argument can't be copied.
    pub fn validate_argument_prefixes(
        &self,
        alloc: Global,
        command: Command,
        version: Protocol,
        capabilities: &Capabilities,
        arguments: &[BString],
        features: &[Feature],
    ) -> Result<(), Error>
        ensures { AnswersRefusal (validation (table_of self.now) command version capabilities.now (map bstring_bytes arguments.now)
            (feature_values features.now)) result }
    {
        if let Some(argument) = unsupported_argument(self.prefixes(command), arguments) {
            return Err(refuse_argument(alloc, command, argument));
        }
        match unsupported_feature(command, version, capabilities, features) {
            Some(feature) => Err(Error::UnsupportedCapability {
                command: command.as_str(),
                feature: feature.0,
            }),
            None => Ok(()),
        }
    }
}

// The error of an argument.
fn refuse_argument(alloc: Global, command: Command, argument: &BString) -> Error
    ensures { IsRefusedBy (bad_argument_of (command_name command) (bstring_bytes argument.now)) result }
{
    match BString::from_slice(alloc, argument.as_bytes()) {
        Ok(argument) => Error::UnsupportedArgument {
            command: command.as_str(),
            argument,
        },
        Err(_) => Error::Memory,
    }
}

fn begins_with(prefixes: &[&'static str], argument: &[u8]) -> bool
    ensures { result ≡ list_any (λ prefix. starts_with nat_eq argument.now prefix.now) prefixes.now }
{
    prefixes
        .iter()
        .any(|prefix| argument.starts_with(prefix.as_bytes()))
}

fn begins_with_any(prefixes: &[&'static str], argument: &[u8]) -> bool
    ensures { result ≡ begins_with_any (words_of prefixes.now) argument.now }
{
    begins_with(prefixes, argument)
}

fn bad_argument<'a>(prefixes: &[&'static str], arguments: &'a [BString]) -> Option<&'a BString>
    ensures { option_copied result ≡ find (λ argument. bad_argument (words_of prefixes.now) (bstring_bytes argument)) arguments.now }
{
    arguments
        .iter()
        .find(|argument| !begins_with_any(prefixes, argument.as_bytes()))
}

// The first argument that begins with none of these words.
fn unsupported_argument<'a>(
    prefixes: &[&'static str],
    arguments: &'a [BString],
) -> Option<&'a BString>
    ensures { option_map bstring_bytes (option_copied result) ≡ find (bad_argument (words_of prefixes.now))
        (map bstring_bytes arguments.now) }
{
    bad_argument(prefixes, arguments)
}

// Whether a feature may be requested.
fn may_ask(command: Command, version: Protocol, capabilities: &Capabilities, name: &str) -> bool
    ensures { result ≡ may_ask command version capabilities.now name.now }
{
    name == "agent"
        || capabilities.contains(name.as_bytes())
        || (version == Protocol::V2 && supports(capabilities, command, name))
}

fn bad_feature<'a>(
    command: Command,
    version: Protocol,
    capabilities: &Capabilities,
    features: &'a [Feature],
) -> Option<&'a Feature>
    ensures { option_copied result ≡ find (λ feature. bad_feature command version capabilities.now (feature_value feature)) features.now }
{
    features.iter().find(|feature| !may_ask(command, version, capabilities, feature.0))
}

// The first feature that may not be requested.
fn unsupported_feature<'a>(
    command: Command,
    version: Protocol,
    capabilities: &Capabilities,
    features: &'a [Feature],
) -> Option<&'a Feature>
    ensures { option_map feature_value (option_copied result) ≡ find (bad_feature command version capabilities.now)
        (feature_values features.now) }
{
    bad_feature(command, version, capabilities, features)
}
