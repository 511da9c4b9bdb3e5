//! The proxy command for `git://` servers (git-config, "core.gitProxy").
ghost use Rattle.std.specs.Prelude.{◌≡◌, map};
ghost use Rattle.std.specs.Option.{option_map};
ghost use Rattle.gixp_remote_rules.specs.Config.{entry_value, settings_in};
ghost use Rattle.gixp_remote_rules.specs.Proxy.{is_front, is_in_domain, command_for, command_of, first_command, unless_none, proxy_for};

use crate::config::{ConfigEntry, Settings};
use bstr::ByteSlice;

// Whether the text before a domain makes the host a part of it.
fn is_front(front: &[u8]) -> bool
    ensures { result ≡ is_front front.now }
{
    front.is_empty() || front.ends_with(b".")
}

// Whether a host is the domain, or within it.
fn is_in_domain(domain: &[u8], host: &[u8]) -> bool
    ensures { result ≡ is_in_domain domain.now host.now }
{
    match host.strip_suffix(domain) {
        Some(front) => is_front(front),
        None => false,
    }
}

// The command of a value for this host: `COMMAND`, or `COMMAND for DOMAIN`.
fn command_for<'a>(value: &'a [u8], host: &[u8]) -> Option<&'a [u8]>
    ensures { option_map (λ c. c.now) result ≡ command_for value.now host.now }
{
    match value.split_once_str(b" for ") {
        Some((command, domain)) => {
            if is_in_domain(domain, host) {
                Some(command)
            } else {
                None
            }
        }
        None => Some(value),
    }
}

// The command of an entry, if the entry is `core.gitProxy` and applies to this host.
fn command_of<'a>(setting: &'a ConfigEntry, host: &[u8]) -> Option<&'a [u8]>
    ensures { option_map (λ c. c.now) result ≡ command_of (entry_value setting.now) host.now }
{
    if setting.name.as_bytes() == b"core.gitproxy".as_slice() {
        command_for(setting.text(), host)
    } else {
        None
    }
}

// The command of the first entry that applies to this host.
fn first_command<'a>(entries: &'a [ConfigEntry], host: &[u8]) -> Option<&'a [u8]>
    ensures { option_map (λ c. c.now) result ≡ first_command (map entry_value entries.now) host.now }
{
    let mut rest = entries;
    'entries: while let Some((entry, after)) = rest.split_first() {
        if let Some(command) = command_of(entry, host) {
            return Some(command);
        }
        rest = after;
    }
    None
}

// An empty command and `none` mean no command.
fn unless_none(command: Option<&[u8]>) -> Option<&[u8]>
    ensures { option_map (λ c. c.now) result ≡ unless_none (option_map (λ c. c.now) command.entry) }
{
    match command {
        Some(command) => {
            if command == b"".as_slice() || command == b"none".as_slice() {
                None
            } else {
                Some(command)
            }
        }
        None => None,
    }
}

/// The proxy command for a host: `GIT_PROXY_COMMAND`, else the first entry that applies. `None`
/// means a direct connection.
pub fn proxy_for<'a>(
    settings: &'a Settings,
    variable: Option<&'a [u8]>,
    host: &[u8],
) -> Option<&'a [u8]>
    ensures { option_map (λ c. c.now) result
        ≡ proxy_for (option_map (λ v. v.now) variable.entry) (settings_in settings.now) host.now }
{
    match variable {
        Some(command) => unless_none(Some(command)),
        None => unless_none(first_command(settings.entries(), host)),
    }
}
