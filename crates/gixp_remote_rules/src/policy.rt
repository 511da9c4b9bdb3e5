//! Which protocols the user allows (git-config, "protocol.allow"; git, "GIT_ALLOW_PROTOCOL").
ghost use Rattle.std.specs.Prelude.{◌≡◌, ◌==◌, IfOk, map, codes};
ghost use Rattle.std.specs.List.{list_any, slice_split};
ghost use Rattle.std.specs.Option.{option_map};
ghost use Rattle.std.specs.Str.{bytes_eq};
ghost use Rattle.bstr.specs.BStr.{bstr_bytes};
ghost use Rattle.gixp_remote_rules.specs.Config.{settings_in, value_of};
ghost use Rattle.gixp_remote_rules.specs.ProtocolPolicy.{policy_of, default_policy, allow_name, policy_for_all, policy_in, permission_by, permission_of_user, permission_in, is_from_user, list_contains, permission_of, password_policy};

use crate::config::{Settings, text_is_true};
use crate::text::is_word;
use bstr::BStr;
use std::alloc::{AllocError, Global};

/// The policy of a protocol.
#[derive(Clone, Copy, Debug, PartialEq, Eq)]
pub enum Policy {
    /// Always allowed.
    Always,
    /// Never allowed.
    Never,
    /// Allowed if the user named the server.
    User,
}

/// Whether a protocol is allowed.
#[derive(Clone, Copy, Debug, PartialEq, Eq)]
pub enum Permission {
    /// Allowed.
    Allowed,
    /// Not allowed.
    Forbidden,
    /// A setting isn't one of git's policies.
    NoPolicy,
    /// The policy is `user`, and `GIT_PROTOCOL_FROM_USER` isn't a boolean.
    NoBoolean,
}

fn policy_of(word: &[u8]) -> Option<Policy>
    ensures { result ≡ policy_of word.now }
{
    if is_word(word, b"always") {
        Some(Policy::Always)
    } else if is_word(word, b"never") {
        Some(Policy::Never)
    } else if is_word(word, b"user") {
        Some(Policy::User)
    } else {
        None
    }
}

// The policy if no setting names one.
fn default_policy(transport: &[u8]) -> Policy
    ensures { result ≡ default_policy transport.now }
{
    if transport == b"http".as_slice()
        || transport == b"https".as_slice()
        || transport == b"git".as_slice()
        || transport == b"ssh".as_slice()
    {
        Policy::Always
    } else if transport == b"ext".as_slice() {
        Policy::Never
    } else {
        Policy::User
    }
}

fn allow_name(alloc: Global, transport: &[u8]) -> Result<Vec<u8>, AllocError>
    ensures { IfOk result (λ name. name.items ≡ allow_name transport.now) }
{
    let mut name = Vec::from_slice(alloc, b"protocol.")?;
    name.extend_from_slice(transport)?;
    name.extend_from_slice(b".allow")?;
    Ok(name)
}

// The words of a list, which colons separate.
fn pieces_of(alloc: Global, list: &[u8]) -> Result<Vec<BStr<'_>>, AllocError>
    ensures { IfOk result (λ pieces. map bstr_bytes pieces.items ≡ slice_split (λ b. b == 58) list.now) }
{
    list.split(|b| *b == b':').map(BStr::new).collect(alloc)
}

pub(crate) fn has_word(words: &[BStr<'_>], word: &[u8]) -> bool
    ensures { result ≡ list_any (λ part. bytes_eq part word.now) (map bstr_bytes words.now) }
{
    'words: for part in words {
        if part.as_bytes() == word {
            return true;
        }
    }
    false
}

fn list_contains(alloc: Global, list: &[u8], word: &[u8]) -> Result<bool, AllocError>
    ensures { IfOk result (λ has. has ≡ list_contains list.now word.now) }
{
    let pieces = pieces_of(alloc, list)?;
    Ok(has_word(&pieces, word))
}

// The policy of `protocol.allow`, else the default.
fn policy_for_all(settings: &Settings, transport: &[u8]) -> Option<Policy>
    ensures { result ≡ policy_for_all (value_of (settings_in settings.now) (codes "protocol.allow")) transport.now }
{
    match settings.value(b"protocol.allow") {
        Some(word) => policy_of(word),
        None => Some(default_policy(transport)),
    }
}

// The policy of a protocol.
fn policy_in(
    alloc: Global,
    settings: &Settings,
    transport: &[u8],
) -> Result<Option<Policy>, AllocError>
    ensures { IfOk result (λ policy. policy ≡ policy_in (settings_in settings.now) transport.now) }
{
    let name = allow_name(alloc, transport)?;
    match settings.value(&name) {
        Some(word) => Ok(policy_of(word)),
        None => Ok(policy_for_all(settings, transport)),
    }
}

fn permission_by(is_allowed: bool) -> Permission
    ensures { result ≡ permission_by is_allowed }
{
    if is_allowed {
        Permission::Allowed
    } else {
        Permission::Forbidden
    }
}

// The permission for the policy `user`.
fn permission_of_user(is_from_user: Option<bool>) -> Permission
    ensures { result ≡ permission_of_user is_from_user }
{
    match is_from_user {
        Some(is_allowed) => permission_by(is_allowed),
        None => Permission::NoBoolean,
    }
}

fn permission_in(policy: Option<Policy>, is_from_user: Option<bool>) -> Permission
    ensures { result ≡ permission_in is_from_user policy }
{
    match policy {
        Some(Policy::Always) => Permission::Allowed,
        Some(Policy::Never) => Permission::Forbidden,
        Some(Policy::User) => permission_of_user(is_from_user),
        None => Permission::NoPolicy,
    }
}

/// Whether the user named the server, by `GIT_PROTOCOL_FROM_USER`. `None` if that isn't a boolean.
pub fn is_from_user(variable: Option<&[u8]>) -> Option<bool>
    ensures { result ≡ is_from_user (option_map (λ v. v.now) variable.entry) }
{
    match variable {
        Some(word) => text_is_true(word),
        None => Some(true),
    }
}

/// Whether a protocol is allowed. `GIT_ALLOW_PROTOCOL` decides if it is set, then
/// `protocol.NAME.allow`, then `protocol.allow`, then git's default.
///
/// # Errors
///
/// Only when an allocation fails.
pub fn permission_of(
    alloc: Global,
    transport: &[u8],
    settings: &Settings,
    list: Option<&[u8]>,
    is_from_user: Option<bool>,
) -> Result<Permission, AllocError>
    ensures { IfOk result (λ permission. permission
        ≡ permission_of (option_map (λ l. l.now) list.entry) (settings_in settings.now) transport.now is_from_user) }
{
    match list {
        Some(list) => {
            let is_listed = list_contains(alloc, list, transport)?;
            Ok(permission_by(is_listed))
        }
        None => {
            let policy = policy_in(alloc, settings, transport)?;
            Ok(permission_in(policy, is_from_user))
        }
    }
}

/// How a URL with a password is treated (git-config, "transfer.credentialsInUrl").
#[derive(Clone, Copy, Debug, PartialEq, Eq)]
pub enum PasswordPolicy {
    /// It is used.
    Allow,
    /// It is used, with a warning.
    Warn,
    /// It is refused, as the setting says.
    Die,
    /// It is refused, since no setting allows it: git can't see the password after `gixp::`, and
    /// would show and store it.
    Refuse,
}

/// The policy of the setting. `None` if git doesn't have such a value.
pub fn password_policy(setting: Option<&[u8]>) -> Option<PasswordPolicy>
    ensures { result ≡ password_policy (option_map (λ s. s.now) setting.entry) }
{
    let Some(word) = setting else {
        return Some(PasswordPolicy::Refuse);
    };
    if word == b"allow".as_slice() {
        Some(PasswordPolicy::Allow)
    } else if word == b"warn".as_slice() {
        Some(PasswordPolicy::Warn)
    } else if word == b"die".as_slice() {
        Some(PasswordPolicy::Die)
    } else {
        None
    }
}
