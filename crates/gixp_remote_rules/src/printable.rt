//! Texts without control characters, as git shows them.
ghost use Rattle.std.specs.Prelude.{◌≡◌, ◌++◌, ◌∷◌, [], IfOk, OnOk};
ghost use Rattle.gixp_remote_rules.specs.Printable.{printable_byte, printable_after};

use gixp_utils::visible;
use std::alloc::{AllocError, Global};

fn printable_byte(before: u8, byte: u8) -> u8
    ensures { result ≡ printable_byte before byte }
{
    if byte == b'\n' {
        byte
    } else {
        visible(before, byte)
    }
}

/// Replaces control characters by question marks, except tabs and line feeds. A terminal would obey
/// control characters of the server or the user.
///
/// # Errors
///
/// Only when an allocation fails.
pub fn printable_text(alloc: Global, text: &[u8]) -> Result<Vec<u8>, AllocError>
    ensures { IfOk result (λ printable. printable.items ≡ printable_after 0 text.now) }
{
    let mut printable = Vec::new(alloc);
    let mut before = 0;
    for byte in text {
        printable.push(printable_byte(before, *byte))?;
        before = *byte;
    }
    Ok(printable)
}
