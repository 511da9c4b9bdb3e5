//! Writes requests to the shell, and reads its answers.
ghost use Rattle.std.specs.Prelude.{◌≡◌, OnOk, IfOk, IfSome, Some};
ghost use Rattle.std.specs.Io.KnownBytes.{Appends};
ghost use Rattle.std.specs.Io.BufRead.{take_through, DropsThrough};
ghost use Rattle.gixp_remote_rules.specs.ShellRequests.{request_text};
ghost use Rattle.gixp_remote_rules.specs.ShellAnswer.{answer_of};

use crate::number::number_of;
use crate::shell_request::{ShellRequest, request_text};
use crate::text::find_byte;
use std::alloc::Global;
use std::io;
use std::io::{BufRead, ErrorKind, Write};

// The number in a line. The line must end in a line feed.
fn answer_of(line: &[u8]) -> Option<u32>
    ensures { result ≡ answer_of line.now }
{
    match find_byte(line, b'\n') {
        Some(at) => number_of(&line[..at]),
        None => None,
    }
}

/// Reads an answer: a number on its own line.
///
/// # Errors
///
/// The read fails, the answer isn't a number (`UnexpectedEof`), or an allocation fails
/// (`OutOfMemory`).
pub fn read_answer<R: BufRead>(alloc: Global, answers: &mut R) -> io::Result<u32>
    ensures number { IfOk result (λ number. IfSome (R.remaining answers.old) (λ bytes. answer_of (take_through 10 bytes) ≡ Some number)) }
    ensures rest { OnOk result (DropsThrough (R.remaining answers.old) (R.remaining answers.new) 10) }
{
    let mut line = Vec::new(alloc);
    answers.read_until(b'\n', &mut line)?;
    match answer_of(&line) {
        Some(number) => Ok(number),
        None => Err(io::Error::from(ErrorKind::UnexpectedEof)),
    }
}

/// Writes a request. The shell answers each request, in order.
///
/// # Errors
///
/// The write fails, or an allocation (`OutOfMemory`).
pub fn write_request<W: Write>(
    alloc: Global,
    requests: &mut W,
    request: &ShellRequest<'_>,
) -> io::Result<()>
    ensures { OnOk result (Appends (W.contents requests.old) (W.contents requests.new) (request_text request.now)) }
{
    let text = match request_text(alloc, request) {
        Ok(text) => text,
        Err(_) => return Err(io::Error::from(ErrorKind::OutOfMemory)),
    };
    requests.write_all(&text)
}
