//! Prints the server's messages on standard error, as git does.
ghost use Rattle.std.specs.Prelude.{◌≡◌, ◌++◌, ◌∷◌, [], codes, length, IfOk, IfSome};

use bstr::BStr;
use gix_protocol::client::{Listener, RemoteLines};
use std::cell::Cell;
use std::io;
use std::io::{BufWriter, Write};

/// Standard error, as a writer of lines.
#[derive(Drop)]
pub struct StandardError<'a> {
    rt: &'a HostRuntime,
    // Whether it is a terminal that can erase the rest of a line.
    erases: bool,
}

// A line without the spaces that overwrite the rest of an older line, and its last byte.
fn without_blanks(line: &[u8]) -> Option<(&[u8], u8)>
    ensures { IfSome result (λ cut. line.now ≡ cut.0.now ++ (codes "        " ++ cut.1 ∷ [])) }
{
    let Some((end, front)) = line.split_last() else {
        return None;
    };
    match front.strip_suffix(b"        ") {
        Some(text) => Some((text, *end)),
        None => None,
    }
}

impl StandardError<'_> {
    // Prints all of a text, and returns its length.
    fn print(&self, text: &[u8]) -> io::Result<usize>
        ensures { IfOk result (λ printed. printed ≡ length text.now) }
    {
        match without_blanks(text) {
            Some((line, end)) if self.erases => {
                let (line, end) = (BStr::new(line), char::from(end));
                eprint!(self.rt; "{line}\u{1b}[K{end}")?;
            }
            _ => {
                let text = BStr::new(text);
                eprint!(self.rt; "{text}")?;
            }
        }
        Ok(text.len())
    }
}

impl Write for StandardError<'_> {
    fn write(&mut self, buf: &[u8]) -> io::Result<usize> {
        self.print(buf)
    }

    fn flush(&mut self) -> io::Result<()> {
        Ok(())
    }
}

/// Prints the server's messages as git does, and records whether one was an error.
#[derive(Drop)]
pub struct MessagePrinter<'a> {
    lines: RemoteLines<BufWriter<StandardError<'a>>>,
    has_failed: &'a Cell<bool>,
}

impl<'a> MessagePrinter<'a> {
    /// Prints on standard error. `erases` says whether it is a terminal that can erase the rest of a line.
    ///
    /// # Errors
    ///
    /// An allocation failure.
    pub fn new(
        rt: &'a HostRuntime,
        erases: bool,
        has_failed: &'a Cell<bool>,
    ) -> io::Result<MessagePrinter<'a>> {
        let alloc = rt.alloc();
        let writer = BufWriter::new(alloc, StandardError { rt, erases })?;
        Ok(MessagePrinter {
            lines: RemoteLines::new(alloc, writer),
            has_failed,
        })
    }

    /// Whether the server reported an error.
    pub fn has_failed(&self) -> bool {
        self.has_failed.get()
    }
}

impl Listener for MessagePrinter<'_> {
    fn hear(&mut self, is_error: bool, text: &[u8]) {
        self.lines.hear(is_error, text);
        if is_error {
            self.has_failed.set(true);
        }
    }
}
