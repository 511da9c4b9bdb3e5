//! The reply to a batch of `fetch` commands, and the capabilities (gitremote-helpers, "fetch",
//! "CAPABILITIES").
ghost use Rattle.std.specs.Prelude.{◌≡◌, ◌++◌, IfOk, OnOk};
ghost use Rattle.std.specs.Option.{option_map};
ghost use Rattle.gixp_remote_rules.specs.HelperOptions.{options_value};
ghost use Rattle.gixp_remote_rules.specs.FetchReply.{capabilities, reports_connectivity, lock_lines, connectivity_lines, batch_reply};

use crate::argv::checks_connectivity;
use crate::options::HelperOptions;
use std::alloc::{AllocError, Global};

/// The capabilities of the helper.
pub fn capabilities() -> &'static [u8]
    ensures { result.now ≡ capabilities }
{
    b"fetch\noption\ncheck-connectivity\nobject-format\n\n"
}

/// Whether `connectivity-ok` is reported, so that git skips its own check. `git index-pack` must
/// have checked connectivity and exited with 0. `was_here` says that an id of the server's boundary
/// was present before: such an id isn't added to the repository's boundary.
pub fn reports_connectivity(
    options: &HelperOptions,
    has_boundary: bool,
    was_here: bool,
    status: u32,
) -> bool
    ensures { result ≡ reports_connectivity (options_value options.now) has_boundary was_here status }
{
    checks_connectivity(options, has_boundary) && !was_here && status == 0
}

fn append_lock(text: &mut Vec<u8>, lock: Option<&[u8]>) -> Result<(), AllocError>
    ensures { OnOk result (text.new.items ≡ text.old.items ++ lock_lines (option_map (λ l. l.now) lock.entry)) }
{
    if let Some(lock) = lock {
        text.extend_from_slice(b"lock ")?;
        text.extend_from_slice(lock)?;
        text.extend_from_slice(b"\n")?;
    }
    Ok(())
}

fn append_connectivity(text: &mut Vec<u8>, is_connected: bool) -> Result<(), AllocError>
    ensures { OnOk result (text.new.items ≡ text.old.items ++ connectivity_lines is_connected) }
{
    if is_connected {
        text.extend_from_slice(b"connectivity-ok\n")?;
    }
    Ok(())
}

/// The reply to a batch: the lock of the pack, if there is one, and `connectivity-ok` if
/// connectivity was checked.
///
/// # Errors
///
/// Only when an allocation fails.
pub fn batch_reply(
    alloc: Global,
    lock: Option<&[u8]>,
    is_connected: bool,
) -> Result<Vec<u8>, AllocError>
    ensures { IfOk result (λ text. text.items ≡ batch_reply (option_map (λ l. l.now) lock.entry) is_connected) }
{
    let mut text = Vec::new(alloc);
    append_lock(&mut text, lock)?;
    append_connectivity(&mut text, is_connected)?;
    text.extend_from_slice(b"\n")?;
    Ok(text)
}
