//! Quoting for a shell, and the commands that need a shell.
ghost use Rattle.std.specs.Prelude.{◌≡◌, ◌++◌, ◌∷◌, [], OnOk, IfOk, flat_map};
ghost use Rattle.gixp_remote_rules.specs.Quoting.{quoted_byte, quoted, is_shell_byte, needs_shell};

use std::alloc::{AllocError, Global};

// The bytes that have a meaning in a shell, as git lists them, without the double quote.
const SHELL_BYTES: &[u8] = b"|&;<>()$`\\' \t\n*?[#~=%";

// Appends a byte of a single-quoted word. A quote or an exclamation mark is written outside the
// quotes, after a backslash.
fn append_quoted(text: &mut Vec<u8>, byte: u8) -> Result<(), AllocError>
    ensures { OnOk result (text.new.items ≡ text.old.items ++ quoted_byte byte) }
{
    if byte == b'\'' || byte == b'!' {
        text.extend_from_slice(b"'\\")?;
        text.extend_from_slice(&[byte])?;
        text.extend_from_slice(b"'")
    } else {
        text.extend_from_slice(&[byte])
    }
}

/// A word in single quotes, as git quotes it for a shell.
pub fn quoted(alloc: Global, word: &[u8]) -> Result<Vec<u8>, AllocError>
    ensures { IfOk result (λ text. text.items ≡ quoted word.now) }
{
    let mut text = Vec::from_slice(alloc, b"'")?;
    for byte in word {
        append_quoted(&mut text, *byte)?;
    }
    text.extend_from_slice(b"'")?;
    Ok(text)
}

// Whether a byte has a meaning in a shell.
fn is_shell_byte(byte: u8) -> bool
    ensures { result ≡ is_shell_byte byte }
{
    byte == b'"' || SHELL_BYTES.contains(&byte)
}

/// Whether git passes a command to a shell. Any other command is the name of a program.
pub fn needs_shell(command: &[u8]) -> bool
    ensures { result ≡ needs_shell command.now }
{
    command.iter().any(|byte| is_shell_byte(*byte))
}
