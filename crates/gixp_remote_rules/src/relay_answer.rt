//! Sends options to git's own program for HTTP, and copies its answers (gitremote-helpers,
//! "option", "list", "fetch").
ghost use Rattle.std.specs.Prelude.{◌≡◌, true, false, IfOk, OnOk, IfSome, flat_map, length};
ghost use Rattle.std.specs.Io.BufRead.{take_through, DropsThrough};
ghost use Rattle.std.specs.Io.KnownBytes.{Appends};
ghost use Rattle.bstr.specs.Owned.{bstring_bytes};
ghost use Rattle.gixp_remote_rules.specs.RelayAnswer.{answer_line, CopiesAnswer, RepliesAll, RepliesNotAll};

use bstr::BString;
use std::alloc::Global;
use std::io;
use std::io::{BufRead, ErrorKind, Write};

/// A line of the program.
#[derive(Clone, Copy, Debug, PartialEq, Eq)]
pub enum AnswerLine {
    /// A line of an answer.
    Text,
    /// An empty line, which ends an answer.
    End,
    /// The output ended without a line feed: the program exited, and has reported why.
    Cut,
}

// What a line is. It has its line feed.
fn answer_line(line: &[u8]) -> AnswerLine
    ensures { result ≡ answer_line line.now }
{
    match line.last() {
        Some(b'\n') => {
            if line.len() == 1 {
                AnswerLine::End
            } else {
                AnswerLine::Text
            }
        }
        _ => AnswerLine::Cut,
    }
}

// Reads a line in place of another.
fn read_line<R: BufRead>(from: &mut R, line: &mut Vec<u8>) -> io::Result<AnswerLine>
    ensures bytes { OnOk result (IfSome (R.remaining from.old) (λ output. line.new.items ≡ take_through 10 output)) }
    ensures rest { OnOk result (DropsThrough (R.remaining from.old) (R.remaining from.new) 10) }
    ensures line { IfOk result (λ found. found ≡ answer_line line.new.items) }
{
    line.clear();
    from.read_until(b'\n', line)?;
    Ok(answer_line(line))
}

/// Sends the lines of options, and reads the reply to each before the next is sent. Any reply will
/// do. Returns false if the program exited before it replied to all.
///
/// # Errors
///
/// A read or a write fails, or an allocation (`OutOfMemory`).
pub fn send_options<R: BufRead, W: Write>(
    alloc: Global,
    from: &mut R,
    to: &mut W,
    options: &[BString],
) -> io::Result<bool>
    ensures sent { IfOk result (λ has_replied. has_replied ≡ true
        → Appends (W.contents to.old) (W.contents to.new) (flat_map bstring_bytes options.now)) }
    ensures replied { IfOk result (λ has_replied. has_replied ≡ true
        → RepliesAll (length options.now) (R.remaining from.old) (R.remaining from.new)) }
    ensures exited { IfOk result (λ has_replied. has_replied ≡ false
        → RepliesNotAll (length options.now) (R.remaining from.old)) }
{
    let mut line = Vec::new(alloc);
    'options: for option in options {
        to.write_all(option.as_bytes())?;
        to.flush()?;
        match read_line(from, &mut line)? {
            AnswerLine::Text | AnswerLine::End => {}
            AnswerLine::Cut => return Ok(false),
        }
    }
    Ok(true)
}

/// Copies an answer line by line, without the empty line that ends it. Returns false if the program
/// exited before that line. Each line before was copied then.
///
/// # Errors
///
/// A read or a write fails, or an allocation (`OutOfMemory`).
pub fn copy_answer<R: BufRead, W: Write>(
    alloc: Global,
    from: &mut R,
    to: &mut W,
) -> io::Result<bool>
    ensures { IfOk result (λ is_whole. CopiesAnswer is_whole (R.remaining from.old) (R.remaining from.new)
        (W.contents to.old) (W.contents to.new)) }
{
    let mut line = Vec::new(alloc);
    'lines: for _ in 0..u64::MAX {
        match read_line(from, &mut line)? {
            AnswerLine::Text => to.write_all(&line)?,
            AnswerLine::End => return Ok(true),
            AnswerLine::Cut => return Ok(false),
        }
    }
    Err(io::Error::from(ErrorKind::Other))
}
