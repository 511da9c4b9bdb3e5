//! The user's configuration of the server: protocol policy, passwords, ssh.
ghost use Rattle.std.specs.Prelude.{◌≡◌, ◌≢◌, [], Some, IfOk, IfErr, IsOk, MatchResult, codes, unwrap_or};
ghost use Rattle.std.specs.Option.{option_map};
ghost use Rattle.bstr.specs.Owned.{bstring_bytes};
ghost use Rattle.gix_protocol.specs.Service.{opening_value};
ghost use Rattle.gixp_remote_rules.specs.ProtocolPolicy.{permission_of, is_from_user, password_policy};
ghost use Rattle.gixp_remote_rules.specs.declared.policy.Permission.TheVariants.{Allowed};
ghost use Rattle.gixp_remote_rules.specs.declared.options.Family.TheVariants.{All};
ghost use Rattle.gixp_url.specs.Password.{redacted};
ghost use Rattle.gixp_remote_rules.specs.Config.{settings_in};
ghost use Rattle.gixp_remote_rules.specs.Proxy.{or_else};
ghost use Rattle.gixp_remote_session.specs.Errors.{ErrorIsPolicy, IsPasswordResult, ErrorIsFatal};
ghost use Rattle.gixp_remote_session.specs.UserConfig.{choose_ssh, program_name_of, choose_variant, variant_by_probe, choose_opening};

use crate::error::Error;
use bstr::BString;
use gix_protocol::transport::Opening;
use gixp_remote_rules::{
    Family, PasswordPolicy, Permission, Program, Settings, Variant, first_word, is_from_user,
    password_policy, permission_of, variant_of,
};
use gixp_url::{Address, Scheme, redacted};
use std::alloc::{AllocError, Global};

// Why a URL with a password is refused if no setting allows it.
const PASSWORD_REFUSAL: &str =
    "the URL has a password, which git would show and store: have a credential helper store it (gitcredentials(7)), or set transfer.credentialsInUrl to allow it";

fn or_else<'x>(found: Option<&'x [u8]>, other: Option<&'x [u8]>) -> Option<&'x [u8]>
    ensures { option_map (λ r. r.now) result ≡ or_else (option_map (λ f. f.now) found.entry) (option_map (λ o. o.now) other.entry) }
{
    match found {
        Some(text) => Some(text),
        None => other,
    }
}

/// Fails if the user doesn't allow the protocol, by `GIT_ALLOW_PROTOCOL`, `GIT_PROTOCOL_FROM_USER`
/// and the configuration.
pub(crate) fn check_allowed(
    alloc: Global,
    transport: &[u8],
    settings: &Settings,
    list: Option<&[u8]>,
    from_user: Option<&[u8]>,
) -> Result<(), Error>
    ensures allowed { IsOk result → permission_of (option_map (λ l. l.now) list.entry) (settings_in settings.now) transport.now
        (is_from_user (option_map (λ v. v.now) from_user.entry)) ≡ Allowed }
    ensures refused { IfErr result (ErrorIsPolicy (permission_of (option_map (λ l. l.now) list.entry) (settings_in settings.now) transport.now
        (is_from_user (option_map (λ v. v.now) from_user.entry))) transport.now (unwrap_or (option_map (λ v. v.now) from_user.entry) [])) }
{
    let permission = permission_of(alloc, transport, settings, list, is_from_user(from_user))?;
    match permission {
        Permission::Allowed => Ok(()),
        Permission::Forbidden => Err(Error::with_text(
            alloc,
            "this transport is not allowed:",
            transport,
        )),
        Permission::NoPolicy => Err(Error::with_text(
            alloc,
            "unknown value for the policy of the protocol",
            transport,
        )),
        Permission::NoBoolean => Err(Error::bad_boolean(
            alloc,
            "GIT_PROTOCOL_FROM_USER",
            from_user.unwrap_or(b""),
        )),
    }
}

// Treats a URL with a password, by the setting. `shown` is the URL without it.
fn apply_password_policy(
    alloc: Global,
    shown: BString,
    setting: Option<&[u8]>,
) -> Result<Option<Error>, Error>
    ensures { IsPasswordResult (unwrap_or (option_map (λ s. s.now) setting.entry) []) (Some (bstring_bytes shown))
        (password_policy (option_map (λ s. s.now) setting.entry)) result }
{
    match password_policy(setting) {
        Some(PasswordPolicy::Allow) => Ok(None),
        Some(PasswordPolicy::Warn) => Ok(Some(Error::Password(shown))),
        Some(PasswordPolicy::Die) => Err(Error::Password(shown)),
        Some(PasswordPolicy::Refuse) => Err(Error::Fatal(PASSWORD_REFUSAL)),
        None => Err(Error::with_text(
            alloc,
            "unrecognized value transfer.credentialsInUrl:",
            setting.unwrap_or(b""),
        )),
    }
}

/// Fails if the URL has a password, unless the setting allows it (git-config,
/// "transfer.credentialsInUrl"). Returns a warning for the user, if there is one.
pub(crate) fn check_password(
    alloc: Global,
    url: &[u8],
    setting: Option<&[u8]>,
) -> Result<Option<Error>, Error>
    ensures { IsPasswordResult (unwrap_or (option_map (λ s. s.now) setting.entry) []) (redacted url.now)
        (password_policy (option_map (λ s. s.now) setting.entry)) result }
{
    match redacted(alloc, url)? {
        Some(shown) => apply_password_policy(alloc, shown, setting),
        None => Ok(None),
    }
}

/// Fails unless all addresses may be used: the shell's connection to a `git://` server can't be
/// limited.
pub(crate) fn check_family(family: Family) -> Result<(), Error>
    ensures { MatchResult result (λ _. family ≡ All) (λ e. (family ≢ All) × ErrorIsFatal (codes "git-remote-gixp can't limit git:// to IPv4 or IPv6 addresses") e) }
{
    if family == Family::All {
        Ok(())
    } else {
        Err(Error::Fatal("git-remote-gixp can't limit git:// to IPv4 or IPv6 addresses"))
    }
}

/// The user's command for ssh: `GIT_SSH_COMMAND`, else the setting, else `GIT_SSH`.
pub(crate) fn choose_ssh(
    alloc: Global,
    command: Option<&[u8]>,
    setting: Option<&[u8]>,
    program: Option<&[u8]>,
) -> Result<(Vec<u8>, Program), AllocError>
    ensures { IfOk result (λ r. (r.0.items, r.1) ≡ choose_ssh (option_map (λ c. c.now) command.entry) (option_map (λ s. s.now) setting.entry)
        (option_map (λ p. p.now) program.entry)) }
{
    match or_else(command, setting) {
        Some(text) => Ok((Vec::from_slice(alloc, text)?, Program::of_command(text))),
        None => Ok((
            Vec::from_slice(alloc, program.unwrap_or(b"ssh"))?,
            Program::Command,
        )),
    }
}

// The program of a command.
fn program_name_of(program: Program, command: &[u8]) -> &[u8]
    ensures { result.now ≡ program_name_of program command.now }
{
    match program {
        Program::Shell => first_word(command),
        Program::Git | Program::Command | Program::Socket => command,
    }
}

/// The variant of ssh: `GIT_SSH_VARIANT`, else the setting, else by the program.
pub(crate) fn choose_variant(
    variable: Option<&[u8]>,
    setting: Option<&[u8]>,
    program: Program,
    command: &[u8],
) -> Variant
    ensures { result ≡ choose_variant (option_map (λ v. v.now) variable.entry) (option_map (λ s. s.now) setting.entry) program command.now }
{
    variant_of(
        or_else(variable, setting),
        program_name_of(program, command),
    )
}

/// The variant of a program, by the exit status of the probe.
pub(crate) fn variant_by_probe(status: u32) -> Variant
    ensures { result ≡ variant_by_probe status }
{
    if status == 0 {
        Variant::Ssh
    } else {
        Variant::Simple
    }
}

/// The opening request to a `git://` server. The user may override the host of the URL.
pub(crate) fn choose_opening(
    alloc: Global,
    address: &Address,
    host: Option<&[u8]>,
) -> Result<Option<Opening>, AllocError>
    ensures { IfOk result (λ opening. option_map opening_value opening ≡ choose_opening address.now.scheme
        (bstring_bytes address.now.path) (bstring_bytes address.now.authority) (option_map (λ h. h.now) host.entry)) }
{
    if address.scheme != Scheme::Git {
        return Ok(None);
    }
    let host = BString::from_slice(alloc, host.unwrap_or(address.authority.as_bytes()))?;
    Ok(Some(Opening {
        path: address.path.clone()?,
        host: Some(host),
    }))
}
