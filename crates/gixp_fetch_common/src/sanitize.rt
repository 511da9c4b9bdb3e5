//! Text of a server, made safe for a terminal.
ghost use Rattle.std.specs.Prelude.{◌≡◌, ◌++◌, IfOk, OnOk};
ghost use Rattle.bstr.specs.Owned.{bstring_bytes};
ghost use Rattle.gixp_fetch_common.specs.Sanitized.{sanitized_byte, sanitized_after};

use bstr::BString;
use gixp_utils::visible;
use std::alloc::{AllocError, Global};

fn append_sanitized(text: &mut Vec<u8>, before: u8, byte: u8) -> Result<(), AllocError>
    ensures { OnOk result (text.new.items ≡ text.old.items ++ sanitized_byte before byte) }
{
    if byte == b'\n' {
        return text.extend_from_slice(b"\nremote: ");
    }
    text.extend_from_slice(&[visible(before, byte)])
}

/// Text of a server as a terminal shows it: each line after the first begins with `remote: `, and control characters that aren't
/// tabs become question marks.
///
/// # Errors
///
/// An allocation failure alone.
pub fn sanitized(alloc: Global, words: &[u8]) -> Result<BString, AllocError>
    ensures { IfOk result (λ text. bstring_bytes text ≡ sanitized_after 0 words.now) }
{
    let mut text = Vec::new(alloc);
    let mut before = 0;
    for byte in words {
        append_sanitized(&mut text, before, *byte)?;
        before = *byte;
    }
    Ok(BString::from(text))
}
