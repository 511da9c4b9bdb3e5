//! Refspecs as users write them: `@` means `HEAD` (gitrevisions, "@").
ghost use Rattle.std.specs.Prelude.{◌≡◌, ◌++◌, IfOk, OnOk};
ghost use Rattle.gixp_refspec.specs.Spelling.{has_at, with_head, spelled};

use std::alloc::{AllocError, Global};

// Whether the source of a refspec without its sign is `@` alone.
fn has_at(body: &[u8]) -> bool
    ensures { result ≡ has_at body.now }
{
    body == b"@".as_slice() || body.starts_with(b"@:")
}

// Appends a refspec without its sign, with `HEAD` for a source that is `@` alone.
fn push_with_head(text: &mut Vec<u8>, body: &[u8]) -> Result<(), AllocError>
    ensures { OnOk result (text.new.items ≡ text.old.items ++ with_head body.now) }
{
    match body {
        [_, rest @ ..] if has_at(body) => {
            text.extend_from_slice(b"HEAD")?;
            text.extend_from_slice(rest)
        }
        _ => text.extend_from_slice(body),
    }
}

/// The text of a refspec, with `HEAD` for a source that is `@` alone.
///
/// # Errors
///
/// Only when an allocation fails.
pub fn spelled(alloc: Global, text: &[u8]) -> Result<Vec<u8>, AllocError>
    ensures { IfOk result (λ t. t.items ≡ spelled text.now) }
{
    let mut spelled = Vec::new(alloc);
    match text {
        [sign @ (b'+' | b'^'), body @ ..] => {
            spelled.push(*sign)?;
            push_with_head(&mut spelled, body)?;
        }
        _ => push_with_head(&mut spelled, text)?,
    }
    Ok(spelled)
}
