//! The export for the text of a number.
ghost use Rattle.std.specs.Prelude.{◌≡◌, ◌⊎◌, ◌<◌, ◌≤◌, ◌++◌, ℕ, List, length, drop};

use gixp_calls::write_error_text;

/// Writes the text of a number that a call returned to the start of a buffer, and its length.
///
/// Returns 0, or 2 if the buffer is too small. Then only the length is written.
#[unsafe(no_mangle)]
pub extern "C" fn gixp_error_text(code: u32, buffer: &mut [u8], len: &mut usize) -> u32
    ensures number { ((result ≡ 0) × (len.new ≤ length buffer.old)) ⊎ ((result ≡ 2) × (length buffer.old < len.new)) }
    ensures input_record { result ≡ 0 → (text : List ℕ) × (length text ≡ len.new) × (buffer.new ≡ text ++ drop (length text) buffer.old) }
    ensures no_room { result ≡ 2 → (buffer.new ≡ buffer.old) × (length buffer.old < len.new) }
{
    write_error_text(code, buffer, len)
}
