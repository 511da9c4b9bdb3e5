//! Arguments and environment variables of the git programs that the shell starts.
ghost use Rattle.std.specs.Prelude.{◌≡◌, ◌∷◌, [], ◌++◌, IfOk, OnOk, map, flat_map};
ghost use Rattle.std.specs.Option.{option_map};
ghost use Rattle.bstr.specs.Owned.{bstring_bytes};
ghost use Rattle.gixp_remote_rules.specs.HelperOptions.{options_value};
ghost use Rattle.gixp_remote_rules.specs.Argv.{remote_name, web_argv, upload_pack_argv, arg_if, checks_connectivity, flags_of, shallow_argv, pack_argv, index_argv, fsck_arg, escaped_in_quotes, in_quotes, after_colon, object_variables, version_variable, server_variables};

use crate::options::HelperOptions;
use bstr::BString;
use std::alloc::{AllocError, Global};

// The variables of the repository that fetches. A server must not see them (git-rev-parse,
// `--local-env-vars`).
const LOCAL_VARIABLES: &[&str] = &[
    "GIT_ALTERNATE_OBJECT_DIRECTORIES",
    "GIT_CONFIG",
    "GIT_CONFIG_PARAMETERS",
    "GIT_CONFIG_COUNT",
    "GIT_OBJECT_DIRECTORY",
    "GIT_DIR",
    "GIT_WORK_TREE",
    "GIT_IMPLICIT_WORK_TREE",
    "GIT_GRAFT_FILE",
    "GIT_INDEX_FILE",
    "GIT_NO_REPLACE_OBJECTS",
    "GIT_REPLACE_REF_BASE",
    "GIT_PREFIX",
    "GIT_INTERNAL_SUPER_PREFIX",
    "GIT_SHALLOW_FILE",
    "GIT_COMMON_DIR",
];

/// Joins texts.
pub fn concat(alloc: Global, parts: &[&[u8]]) -> Result<Vec<u8>, AllocError>
    ensures { IfOk result (λ text. text.items ≡ flat_map (λ part. part.now) parts.now) }
{
    let mut text = Vec::new(alloc);
    for part in parts {
        text.extend_from_slice(*part)?;
    }
    Ok(text)
}

pub(crate) fn add(alloc: Global, argv: &mut Vec<BString>, word: &[u8]) -> Result<(), AllocError>
    ensures { OnOk result (map bstring_bytes argv.new.items ≡ map bstring_bytes argv.old.items ++ word.now ∷ []) }
{
    argv.push(BString::from_slice(alloc, word)?)?;
    Ok(())
}

pub(crate) fn add_if(
    alloc: Global,
    argv: &mut Vec<BString>,
    is_there: bool,
    word: &[u8],
) -> Result<(), AllocError>
    ensures { OnOk result (map bstring_bytes argv.new.items ≡ map bstring_bytes argv.old.items ++ arg_if is_there word.now) }
{
    if is_there {
        add(alloc, argv, word)?;
    }
    Ok(())
}

pub(crate) fn add_all(
    alloc: Global,
    argv: &mut Vec<BString>,
    more: &[BString],
) -> Result<(), AllocError>
    ensures { OnOk result (map bstring_bytes argv.new.items ≡ map bstring_bytes argv.old.items ++ map bstring_bytes more.now) }
{
    for word in more {
        add(alloc, argv, word.as_bytes())?;
    }
    Ok(())
}

pub(crate) fn add_names(
    alloc: Global,
    argv: &mut Vec<BString>,
    names: &[&str],
) -> Result<(), AllocError>
    ensures { OnOk result (map bstring_bytes argv.new.items ≡ map bstring_bytes argv.old.items ++ map (λ n. n.now) names.now) }
{
    for name in names {
        add(alloc, argv, name.as_bytes())?;
    }
    Ok(())
}

// The name of the remote. For a remote without a name git passes `gixp::URL`; then it is the URL.
fn remote_name(name: &[u8]) -> &[u8]
    ensures { result.now ≡ remote_name name.now }
{
    match name.strip_prefix(b"gixp::") {
        Some(url) => url,
        None => name,
    }
}

/// The arguments of git for its program that speaks HTTP (gitremote-helpers, "INVOCATION"). The
/// name of the remote and the URL are passed unchanged. The program requests this version
/// (git-config, "protocol.version").
///
/// # Errors
///
/// Only when an allocation fails.
pub fn web_argv(
    alloc: Global,
    version: &[u8],
    scheme: &[u8],
    name: &[u8],
    url: &[u8],
) -> Result<Vec<BString>, AllocError>
    ensures { IfOk result (λ argv. map bstring_bytes argv.items ≡ web_argv version.now scheme.now name.now url.now) }
{
    let setting = concat(alloc, &[b"protocol.version=", version])?;
    let program = concat(alloc, &[b"remote-", scheme])?;
    let mut argv = Vec::new(alloc);
    add(alloc, &mut argv, b"-c")?;
    add(alloc, &mut argv, &setting)?;
    add(alloc, &mut argv, &program)?;
    add(alloc, &mut argv, remote_name(name))?;
    add(alloc, &mut argv, url)?;
    Ok(argv)
}

/// The arguments of git for a server on this machine.
///
/// # Errors
///
/// Only when an allocation fails.
pub fn upload_pack_argv(alloc: Global, path: &[u8]) -> Result<Vec<BString>, AllocError>
    ensures { IfOk result (λ argv. map bstring_bytes argv.items ≡ upload_pack_argv path.now) }
{
    let mut argv = Vec::new(alloc);
    add(alloc, &mut argv, b"upload-pack")?;
    add(alloc, &mut argv, path)?;
    Ok(argv)
}

/// Whether `git index-pack` checks that the pack is self-contained and connected. Not if the server
/// sent a shallow boundary that the repository doesn't take over.
pub fn checks_connectivity(options: &HelperOptions, has_boundary: bool) -> bool
    ensures { result ≡ checks_connectivity has_boundary (options_value options.now) }
{
    options.wants_connectivity() && (!has_boundary || options.is_cloning || options.updates_shallow)
}

// The flags that git's options ask for.
fn add_flags(
    alloc: Global,
    argv: &mut Vec<BString>,
    options: &HelperOptions,
    has_boundary: bool,
) -> Result<(), AllocError>
    ensures { OnOk result (map bstring_bytes argv.new.items
        ≡ map bstring_bytes argv.old.items ++ flags_of has_boundary (options_value options.now)) }
{
    add_if(
        alloc,
        argv,
        checks_connectivity(options, has_boundary),
        b"--check-self-contained-and-connected",
    )?;
    add_if(alloc, argv, options.is_from_promisor, b"--promisor")?;
    add_if(alloc, argv, options.wants_progress(), b"-v")
}

// The arguments for a boundary in another file than the repository's.
pub(crate) fn shallow_argv(
    alloc: Global,
    shallow: Option<&[u8]>,
) -> Result<Vec<BString>, AllocError>
    ensures { IfOk result (λ argv. map bstring_bytes argv.items ≡ shallow_argv (option_map (λ s. s.now) shallow.entry)) }
{
    let mut argv = Vec::new(alloc);
    if let Some(path) = shallow {
        add(alloc, &mut argv, b"--shallow-file")?;
        add(alloc, &mut argv, path)?;
    }
    Ok(argv)
}

// The arguments that are always passed.
fn pack_argv(alloc: Global, folder: &[u8]) -> Result<Vec<BString>, AllocError>
    ensures { IfOk result (λ argv. map bstring_bytes argv.items ≡ pack_argv folder.now) }
{
    let lock = concat(alloc, &[b"--keep=fetched by gixp in ", folder])?;
    let mut argv = Vec::new(alloc);
    add(alloc, &mut argv, b"index-pack")?;
    add(alloc, &mut argv, b"--stdin")?;
    add(alloc, &mut argv, b"--fix-thin")?;
    add(alloc, &mut argv, &lock)?;
    Ok(argv)
}

/// The arguments of `git index-pack`. The lock of the pack names `folder`. If the server sent a
/// boundary, `shallow` is the file that has it. `checks` are the arguments for checking the
/// objects.
///
/// # Errors
///
/// Only when an allocation fails.
pub fn index_argv(
    alloc: Global,
    folder: &[u8],
    shallow: Option<&[u8]>,
    options: &HelperOptions,
    checks: &[BString],
) -> Result<Vec<BString>, AllocError>
    ensures { IfOk result (λ argv. map bstring_bytes argv.items
        ≡ index_argv folder.now (option_map (λ s. s.now) shallow.entry) (options_value options.now) (map bstring_bytes checks.now)) }
{
    let pack = pack_argv(alloc, folder)?;
    let mut argv = shallow_argv(alloc, shallow)?;
    add_all(alloc, &mut argv, &pack)?;
    add_flags(alloc, &mut argv, options, shallow.is_some())?;
    add_all(alloc, &mut argv, checks)?;
    Ok(argv)
}

/// The argument that makes git check the received objects. The links of promised objects aren't
/// checked. `list` has the messages whose severity the user chose.
///
/// # Errors
///
/// Only when an allocation fails.
pub fn fsck_arg(alloc: Global, options: &HelperOptions, list: &[u8]) -> Result<Vec<u8>, AllocError>
    ensures { IfOk result (λ word. word.items ≡ fsck_arg (options_value options.now) list.now) }
{
    if options.is_from_promisor {
        Vec::from_slice(alloc, b"--fsck-objects")
    } else {
        concat(alloc, &[b"--strict", list])
    }
}

// Appends a byte of a quoted path, with a backslash before a quote or a backslash.
fn append_in_quotes(text: &mut Vec<u8>, byte: u8) -> Result<(), AllocError>
    ensures { OnOk result (text.new.items ≡ text.old.items ++ escaped_in_quotes byte) }
{
    if byte == b'"' || byte == b'\\' {
        text.extend_from_slice(&[b'\\', byte])
    } else {
        text.extend_from_slice(&[byte])
    }
}

// A quoted path, as in the list of alternates.
fn in_quotes(alloc: Global, path: &[u8]) -> Result<Vec<u8>, AllocError>
    ensures { IfOk result (λ text. text.items ≡ in_quotes path.now) }
{
    let mut text = Vec::from_slice(alloc, b"\"")?;
    for byte in path {
        append_in_quotes(&mut text, *byte)?;
    }
    text.extend_from_slice(b"\"")?;
    Ok(text)
}

// A colon, and the list that the variable had before.
fn after_colon(alloc: Global, more: Option<&[u8]>) -> Result<Vec<u8>, AllocError>
    ensures { IfOk result (λ text. text.items ≡ after_colon (option_map (λ m. m.now) more.entry)) }
{
    match more {
        Some(more) => concat(alloc, &[b":", more]),
        None => Ok(Vec::new(alloc)),
    }
}

/// The variables that make git look for objects in a folder first, then in the repository, and then
/// where it looked before (git, "GIT_ALTERNATE_OBJECT_DIRECTORIES").
///
/// # Errors
///
/// Only when an allocation fails.
pub fn object_variables(
    alloc: Global,
    folder: &[u8],
    objects: &[u8],
    more: Option<&[u8]>,
) -> Result<Vec<BString>, AllocError>
    ensures { IfOk result (λ variables. map bstring_bytes variables.items
        ≡ object_variables folder.now objects.now (option_map (λ m. m.now) more.entry)) }
{
    let first = concat(alloc, &[b"GIT_OBJECT_DIRECTORY=", folder])?;
    let quoted = in_quotes(alloc, objects)?;
    let others = after_colon(alloc, more)?;
    let second = concat(
        alloc,
        &[b"GIT_ALTERNATE_OBJECT_DIRECTORIES=", &quoted, &others],
    )?;
    let mut variables = Vec::new(alloc);
    add(alloc, &mut variables, &first)?;
    add(alloc, &mut variables, &second)?;
    Ok(variables)
}

// The variable with the version of the protocol. For version 0 it is unset.
fn version_variable(alloc: Global, version: Option<&[u8]>) -> Result<Vec<u8>, AllocError>
    ensures { IfOk result (λ text. text.items ≡ version_variable (option_map (λ v. v.now) version.entry)) }
{
    match version {
        Some(word) => concat(alloc, &[b"GIT_PROTOCOL=", word]),
        None => Vec::from_slice(alloc, b"GIT_PROTOCOL"),
    }
}

/// The variables of a server. It gets none of the repository's. `version` is the text of the
/// protocol's version, and `None` for version 0.
///
/// # Errors
///
/// Only when an allocation fails.
pub fn server_variables(alloc: Global, version: Option<&[u8]>) -> Result<Vec<BString>, AllocError>
    ensures { IfOk result (λ variables. map bstring_bytes variables.items
        ≡ server_variables (option_map (λ v. v.now) version.entry)) }
{
    let last = version_variable(alloc, version)?;
    let mut variables = Vec::new(alloc);
    add_names(alloc, &mut variables, LOCAL_VARIABLES)?;
    add(alloc, &mut variables, &last)?;
    Ok(variables)
}
