//! The arguments of ssh, by the variant of its program (git-config, "ssh.variant").
ghost use Rattle.std.specs.Prelude.{◌≡◌, ◌∷◌, ◌++◌, [], IfOk, OnOk, map};
ghost use Rattle.gixp_remote_rules.specs.declared.ssh.SshError.TheVariants.{Memory};
ghost use Rattle.std.specs.Option.{option_map};
ghost use Rattle.bstr.specs.Owned.{bstring_bytes};
ghost use Rattle.gixp_remote_rules.specs.Ssh.{named_variant, base_name, variant_of_program, trim_blanks, before, word_at, first_word, variant_of};
ghost use Rattle.gixp_remote_rules.specs.Ssh.{call_value, has_families, is_sent, version_argv, family_argv, batch_argv, port_option, port_argv, call_argv, family_refusal, port_refusal, refusal_of, ReturnsArgv, ssh_argv, server_command, with_command, server_argv, with_probe, probe_argv};

use crate::argv::{add, add_all, concat};
use crate::options::Family;
use crate::quote::quoted;
use crate::text::{find_byte, is_word};
use bstr::BString;
use std::alloc::{AllocError, Global};
use thiserror::Error;

/// The variant of an ssh program. It decides which options the program gets.
#[derive(Clone, Copy, Debug, PartialEq, Eq)]
pub enum Variant {
    /// Unknown: `ssh -G` shows whether the program is OpenSSH.
    Auto,
    /// The program takes only a host and a command.
    Simple,
    /// OpenSSH.
    Ssh,
    /// plink or PuTTY.
    Plink,
    /// TortoisePlink.
    TortoisePlink,
}

// The variant that the user's word names. An unknown word means OpenSSH.
fn named_variant(word: &[u8]) -> Variant
    ensures { result ≡ named_variant word.now }
{
    if word == b"auto".as_slice() {
        Variant::Auto
    } else if word == b"plink".as_slice() || word == b"putty".as_slice() {
        Variant::Plink
    } else if word == b"tortoiseplink".as_slice() {
        Variant::TortoisePlink
    } else if word == b"simple".as_slice() {
        Variant::Simple
    } else {
        Variant::Ssh
    }
}

// The name of a program without its folder.
fn base_name(program: &[u8]) -> &[u8]
    ensures { result.now ≡ base_name program.now }
{
    let mut base = program;
    let mut rest = program;
    'bytes: while let Some((byte, after)) = rest.split_first() {
        if *byte == b'/' {
            base = after;
        }
        rest = after;
    }
    base
}

// The variant of a program, by its name.
fn variant_of_program(program: &[u8]) -> Variant
    ensures { result ≡ variant_of_program program.now }
{
    let name = base_name(program);
    if is_word(name, b"ssh") || is_word(name, b"ssh.exe") {
        Variant::Ssh
    } else if is_word(name, b"plink") || is_word(name, b"plink.exe") {
        Variant::Plink
    } else if is_word(name, b"tortoiseplink") || is_word(name, b"tortoiseplink.exe") {
        Variant::TortoisePlink
    } else {
        Variant::Auto
    }
}

// A text without the spaces and tabs that it begins with.
fn trim_blanks(text: &[u8]) -> &[u8]
    ensures { result.now ≡ trim_blanks text.now }
{
    let mut rest = text;
    'blanks: while let Some((byte, after)) = rest.split_first() {
        if *byte != b' ' && *byte != b'\t' {
            return rest;
        }
        rest = after;
    }
    rest
}

// The text before a byte.
fn before(text: &[u8], byte: u8) -> &[u8]
    ensures { result.now ≡ before text.now byte }
{
    match find_byte(text, byte) {
        Some(at) => &text[..at],
        None => text,
    }
}

// The first word, without quotes.
fn word_at(text: &[u8]) -> &[u8]
    ensures { result.now ≡ word_at text.now }
{
    match text.split_first() {
        Some((quote, rest)) => {
            if *quote == b'\'' || *quote == b'"' {
                before(rest, *quote)
            } else {
                before(text, b' ')
            }
        }
        None => text,
    }
}

/// The first word of a shell command, without quotes.
pub fn first_word(text: &[u8]) -> &[u8]
    ensures { result.now ≡ first_word text.now }
{
    word_at(trim_blanks(text))
}

/// The variant that `GIT_SSH_VARIANT` or `ssh.variant` names, else the variant of the program.
pub fn variant_of(chosen: Option<&[u8]>, program: &[u8]) -> Variant
    ensures { result ≡ variant_of (option_map (λ w. w.now) chosen.entry) program.now }
{
    match chosen {
        Some(word) => match named_variant(word) {
            Variant::Auto => variant_of_program(program),
            Variant::Simple => Variant::Simple,
            Variant::Ssh => Variant::Ssh,
            Variant::Plink => Variant::Plink,
            Variant::TortoisePlink => Variant::TortoisePlink,
        },
        None => variant_of_program(program),
    }
}

/// The connection that ssh opens.
#[derive(Clone, Copy)]
pub struct SshCall<'a> {
    /// Whether the version of the protocol is sent.
    pub sends_version: bool,
    /// Which addresses of the host are used.
    pub family: Family,
    /// The port, if the URL has one.
    pub port: Option<&'a [u8]>,
    /// The user and the host.
    pub host: &'a [u8],
}

/// Why a variant can't open a connection.
#[derive(Clone, Copy, Debug, PartialEq, Eq, Error)]
pub enum SshError {
    /// It can't be limited to IPv4 addresses.
    #[error("ssh variant 'simple' does not support -4")]
    Ipv4,
    /// It can't be limited to IPv6 addresses.
    #[error("ssh variant 'simple' does not support -6")]
    Ipv6,
    /// It doesn't take a port.
    #[error("ssh variant 'simple' does not support setting port")]
    Port,
    /// An allocation failed.
    #[error("out of memory")]
    Memory,
}

impl From<AllocError> for SshError {
    ghost from_gives = { λ _ e. e ≡ Memory };

    fn from(_e: AllocError) -> Self {
        SshError::Memory
    }
}

// Whether the variant can be limited to IPv4 or IPv6 addresses.
fn has_families(variant: Variant) -> bool
    ensures { result ≡ has_families variant }
{
    match variant {
        Variant::Simple => false,
        Variant::Auto | Variant::Ssh | Variant::Plink | Variant::TortoisePlink => true,
    }
}

// The option that precedes a port.
fn port_option(variant: Variant) -> Option<&'static [u8]>
    ensures { option_map (λ w. w.now) result ≡ port_option variant }
{
    match variant {
        Variant::Ssh => Some(b"-p"),
        Variant::Plink | Variant::TortoisePlink => Some(b"-P"),
        Variant::Auto | Variant::Simple => None,
    }
}

fn family_refusal(variant: Variant, family: Family) -> Option<SshError>
    ensures { result ≡ family_refusal variant family }
{
    if has_families(variant) {
        return None;
    }
    match family {
        Family::All => None,
        Family::Ipv4 => Some(SshError::Ipv4),
        Family::Ipv6 => Some(SshError::Ipv6),
    }
}

fn port_refusal(variant: Variant, port: Option<&[u8]>) -> Option<SshError>
    ensures { result ≡ port_refusal variant (option_map (λ p. p.now) port.entry) }
{
    match (port_option(variant), port) {
        (None, Some(_)) => Some(SshError::Port),
        _ => None,
    }
}

// Why a variant can't open a connection.
fn refusal_of(variant: Variant, family: Family, port: Option<&[u8]>) -> Option<SshError>
    ensures { result ≡ refusal_of variant family (option_map (λ p. p.now) port.entry) }
{
    match family_refusal(variant, family) {
        Some(e) => Some(e),
        None => port_refusal(variant, port),
    }
}

fn add_two(
    alloc: Global,
    argv: &mut Vec<BString>,
    first: &[u8],
    second: &[u8],
) -> Result<(), AllocError>
    ensures { OnOk result (map bstring_bytes argv.new.items ≡ map bstring_bytes argv.old.items ++ (first.now ∷ second.now ∷ [])) }
{
    add(alloc, argv, first)?;
    add(alloc, argv, second)?;
    Ok(())
}

// Whether the variant sends the version by an environment variable.
fn is_sent(variant: Variant, sends_version: bool) -> bool
    ensures { result ≡ is_sent variant sends_version }
{
    match variant {
        Variant::Ssh => sends_version,
        Variant::Auto | Variant::Simple | Variant::Plink | Variant::TortoisePlink => false,
    }
}

fn add_version(
    alloc: Global,
    argv: &mut Vec<BString>,
    variant: Variant,
    sends_version: bool,
) -> Result<(), AllocError>
    ensures { OnOk result (map bstring_bytes argv.new.items ≡ map bstring_bytes argv.old.items ++ version_argv variant sends_version) }
{
    if is_sent(variant, sends_version) {
        add_two(alloc, argv, b"-o", b"SendEnv=GIT_PROTOCOL")?;
    }
    Ok(())
}

fn add_family(
    alloc: Global,
    argv: &mut Vec<BString>,
    variant: Variant,
    family: Family,
) -> Result<(), AllocError>
    ensures { OnOk result (map bstring_bytes argv.new.items ≡ map bstring_bytes argv.old.items ++ family_argv variant family) }
{
    if has_families(variant) {
        match family {
            Family::All => {}
            Family::Ipv4 => add(alloc, argv, b"-4")?,
            Family::Ipv6 => add(alloc, argv, b"-6")?,
        }
    }
    Ok(())
}

// The option that keeps TortoisePlink from asking the user.
fn add_batch(alloc: Global, argv: &mut Vec<BString>, variant: Variant) -> Result<(), AllocError>
    ensures { OnOk result (map bstring_bytes argv.new.items ≡ map bstring_bytes argv.old.items ++ batch_argv variant) }
{
    if variant == Variant::TortoisePlink {
        add(alloc, argv, b"-batch")?;
    }
    Ok(())
}

fn add_port(
    alloc: Global,
    argv: &mut Vec<BString>,
    variant: Variant,
    port: Option<&[u8]>,
) -> Result<(), AllocError>
    ensures { OnOk result (map bstring_bytes argv.new.items
        ≡ map bstring_bytes argv.old.items ++ port_argv (port_option variant) (option_map (λ p. p.now) port.entry)) }
{
    if let (Some(option), Some(port)) = (port_option(variant), port) {
        add_two(alloc, argv, option, port)?;
    }
    Ok(())
}

// The options and the host.
fn call_argv(alloc: Global, variant: Variant, call: SshCall<'_>) -> Result<Vec<BString>, AllocError>
    ensures { IfOk result (λ argv. map bstring_bytes argv.items ≡ call_argv variant (call_value call.entry)) }
{
    let mut argv = Vec::new(alloc);
    add_version(alloc, &mut argv, variant, call.sends_version)?;
    add_family(alloc, &mut argv, variant, call.family)?;
    add_batch(alloc, &mut argv, variant)?;
    add_port(alloc, &mut argv, variant, call.port)?;
    add(alloc, &mut argv, call.host)?;
    Ok(argv)
}

/// The arguments after the name of ssh: the options and the host.
///
/// # Errors
///
/// Why the variant can't open the connection, in git's words, or `Memory`.
pub fn ssh_argv(
    alloc: Global,
    variant: Variant,
    call: SshCall<'_>,
) -> Result<Vec<BString>, SshError>
    ensures { ReturnsArgv (ssh_argv variant (call_value call.entry)) result }
{
    if let Some(e) = refusal_of(variant, call.family, call.port) {
        return Err(e);
    }
    Ok(call_argv(alloc, variant, call)?)
}

// The server's command, for the shell on its machine.
fn server_command(alloc: Global, path: &[u8]) -> Result<Vec<u8>, AllocError>
    ensures { IfOk result (λ text. text.items ≡ server_command path.now) }
{
    let path = quoted(alloc, path)?;
    concat(alloc, &[b"git-upload-pack ", &path])
}

fn with_command(
    alloc: Global,
    command: &[u8],
    argv: &[BString],
    path: &[u8],
) -> Result<Vec<BString>, AllocError>
    ensures { IfOk result (λ all. map bstring_bytes all.items
        ≡ with_command command.now path.now (map bstring_bytes argv.now)) }
{
    let last = server_command(alloc, path)?;
    let mut all = Vec::new(alloc);
    add(alloc, &mut all, command)?;
    add_all(alloc, &mut all, argv)?;
    add(alloc, &mut all, &last)?;
    Ok(all)
}

/// The arguments that start a server by ssh: the user's command, the options, the host, and the
/// server's command.
///
/// # Errors
///
/// Why the variant can't open the connection, in git's words, or `Memory`.
pub fn server_argv(
    alloc: Global,
    command: &[u8],
    variant: Variant,
    call: SshCall<'_>,
    path: &[u8],
) -> Result<Vec<BString>, SshError>
    ensures { ReturnsArgv (server_argv command.now variant (call_value call.entry) path.now) result }
{
    match ssh_argv(alloc, variant, call) {
        Ok(argv) => Ok(with_command(alloc, command, &argv, path)?),
        Err(e) => Err(e),
    }
}

fn with_probe(alloc: Global, command: &[u8], argv: &[BString]) -> Result<Vec<BString>, AllocError>
    ensures { IfOk result (λ all. map bstring_bytes all.items ≡ with_probe command.now (map bstring_bytes argv.now)) }
{
    let mut all = Vec::new(alloc);
    add(alloc, &mut all, command)?;
    add(alloc, &mut all, b"-G")?;
    add_all(alloc, &mut all, argv)?;
    Ok(all)
}

/// The arguments that ask a program whether it is OpenSSH. OpenSSH prints its configuration then.
///
/// # Errors
///
/// Only when an allocation fails.
pub fn probe_argv(
    alloc: Global,
    command: &[u8],
    call: SshCall<'_>,
) -> Result<Vec<BString>, AllocError>
    ensures { IfOk result (λ argv. map bstring_bytes argv.items ≡ probe_argv command.now (call_value call.entry)) }
{
    let argv = call_argv(alloc, Variant::Ssh, call)?;
    with_probe(alloc, command, &argv)
}
