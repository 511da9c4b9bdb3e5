//! Listeners for the server's progress and error messages.
ghost use Rattle.std.specs.Prelude.{◌≡◌, ◌||◌, ℕ, Bool, List, [], ◌∷◌, ◌++◌, Some, false, true, ⊤, OnOk, OnErr};
ghost use Rattle.std.specs.List.{find};
ghost use Rattle.std.specs.Option.{option_copied};
ghost use Rattle.std.specs.Io.KnownBytes.{Appends};
ghost use Rattle.gixp_utils.specs.Printable.{visible};
ghost use Rattle.gixp_client.specs.Listening.{without_end, last_byte, remote_line, unshown, after_byte, after_text, ended, shown_of, ShowsLines, KeepsText, KeepsTexts, ReceivesText, kept_texts};

use bstr::BString;
use gixp_utils::visible;
use std::alloc::{AllocError, Global};
use std::io;
use std::io::Write;

/// A listener for the messages of bands 2 and 3 (gitprotocol-pack, "Packfile Data").
///
/// An implementation has nothing to prove: `receives` has a default, so the method is enough.
pub trait Listener {
    /// How `hear` changes the listener: before, whether the message is an error, its bytes, after. The default allows any change.
    ghost receives: { Self → Bool → List ℕ → Self → Type 0 } = { λ _ _ _ _. ⊤ };

    /// Receives the message of one packet line. The message may be part of a line, or contain several lines. It is progress or an
    /// error (band 3). `git fetch` stops at an error.
    fn hear(&mut self, is_error: bool, text: &[u8])
        ensures { receives self.old is_error text.now self.new };
}

/// A listener that ignores all messages.
#[derive(Clone, Copy, Debug, Drop)]
pub struct Silent;

impl Listener for Silent {
    fn hear(&mut self, _is_error: bool, _text: &[u8]) {}
}

/// A message of band 2 or 3.
#[derive(Debug, Drop)]
pub struct ServerText {
    /// Whether it is an error (band 3) and not progress (band 2).
    pub is_error: bool,
    /// The text, without one trailing NUL, LF or CR.
    pub text: BString,
}

/// The limit of the texts that `Kept` keeps, in bytes. Each text counts one byte more than its length. A server may send any number
/// of texts.
pub const MOST_KEPT: usize = 1 << 20;

/// A listener that keeps messages, up to `MOST_KEPT` bytes.
#[derive(Debug, Drop)]
pub struct Kept {
    alloc: Global,
    texts: Vec<ServerText>,
    room: usize,
    is_cut: bool,
    has_error: bool,
}

fn without_end(text: &[u8]) -> &[u8]
    ensures { result.now ≡ without_end text.now }
{
    match text {
        [front @ .., b'\0' | b'\n' | b'\r'] => front,
        _ => text,
    }
}

impl Kept {
    /// Without messages.
    pub fn new(alloc: Global) -> Kept
        ensures texts { kept_texts result ≡ [] }
        ensures room { result.room ≡ MOST_KEPT }
        ensures cut { result.is_cut ≡ false }
        ensures error { result.has_error ≡ false }
    {
        Kept {
            alloc,
            texts: Vec::new(alloc),
            room: MOST_KEPT,
            is_cut: false,
            has_error: false,
        }
    }

    /// The messages, in the order of their arrival.
    pub fn texts(&self) -> &[ServerText]
        ensures { result.now ≡ self.now.texts.items }
    {
        &self.texts
    }

    /// Whether a message was dropped, because of the limit or a failed allocation.
    pub fn is_cut(&self) -> bool
        ensures { result ≡ self.now.is_cut }
    {
        self.is_cut
    }

    /// Whether the server reported an error. Errors whose text was dropped count.
    pub fn has_error(&self) -> bool
        ensures { result ≡ self.now.has_error }
    {
        self.has_error
    }

    /// The first error whose text was kept.
    pub fn first_error(&self) -> Option<&ServerText>
        ensures { option_copied result ≡ find (λ message_text. message_text.is_error) self.now.texts.items }
    {
        self.texts.iter().find(|message_text| message_text.is_error)
    }

    fn record_error(&mut self, is_error: bool)
        ensures { self.new ≡ record self.old { has_error = self.old.has_error || is_error } }
    {
        self.has_error = self.has_error || is_error;
    }

    // Fails if the text exceeds the limit, too.
    fn keep(&mut self, is_error: bool, text: &[u8]) -> Result<(), AllocError>
        ensures kept { OnOk result (KeepsText is_error text.now self.old self.new) }
        ensures stays { OnErr result (KeepsTexts self.old self.new) }
        ensures cut { self.new.is_cut ≡ self.old.is_cut }
        ensures error { self.new.has_error ≡ self.old.has_error }
    {
        let text = without_end(text);
        let Some(room) = self.room.checked_sub(text.len()) else {
            return Err(AllocError);
        };
        let Some(room) = room.checked_sub(1) else {
            return Err(AllocError);
        };
        let text = BString::from_slice(self.alloc, text)?;
        self.texts.push(ServerText { is_error, text })?;
        self.room = room;
        Ok(())
    }
}

impl Listener for Kept {
    ghost receives = { λ k is_error text n. ReceivesText is_error text k n };

    fn hear(&mut self, is_error: bool, text: &[u8]) {
        self.record_error(is_error);
        if self.keep(is_error, text).is_err() {
            self.is_cut = true;
        }
    }
}

/// A listener that writes messages as git does. Each line begins with `remote: `, also if it was split over several packets. Its
/// control characters, except tabs, become question marks. A carriage return ends a line, too. The next line is then shown over it,
/// so blanks follow the text. A line is written once it is complete.
pub struct RemoteLines<W: Write + Drop> {
    writer: W,
    line: Vec<u8>,
    is_cut: bool,
}

// Overwrites the rest of a longer line.
const BLANKS: &[u8] = b"        ";

fn last_byte(line: &[u8]) -> u8
    ensures { result ≡ last_byte line.now }
{
    line.last().copied().unwrap_or(0)
}

fn write_line<W: Write>(writer: &mut W, line: &[u8], end: u8) -> io::Result<()>
    ensures { OnOk result (Appends (W.contents writer.old) (W.contents writer.new) (remote_line line.now end)) }
{
    writer.write_all(b"remote: ")?;
    writer.write_all(line)?;
    if !line.is_empty() {
        writer.write_all(BLANKS)?;
    }
    writer.write_all(&[end])?;
    writer.flush()
}

impl<W: Write + Drop> RemoteLines<W> {
    /// Writes to this writer. Output that a write fails to write is lost.
    pub fn new(alloc: Global, writer: W) -> RemoteLines<W>
        ensures writer { result.writer ≡ writer }
        ensures line { result.line.items ≡ [] }
        ensures cut { result.is_cut ≡ false }
    {
        RemoteLines {
            writer,
            line: Vec::new(alloc),
            is_cut: false,
        }
    }

    /// Whether output was lost because a write or an allocation failed.
    pub fn is_cut(&self) -> bool
        ensures { result ≡ self.now.is_cut }
    {
        self.is_cut
    }

    // Writes the current line with its terminator, and starts a new line.
    fn end_line(&mut self, end: u8)
        ensures { ShowsLines self.old.is_cut (W.contents self.old.writer) self.new.is_cut (W.contents self.new.writer)
            self.new.line.items (record { written = remote_line self.old.line.items end; line = [] }) }
    {
        if write_line(&mut self.writer, &self.line, end).is_err() {
            self.is_cut = true;
        }
        self.line.clear();
    }

    // Adds a byte to the current line.
    fn add(&mut self, byte: u8)
        ensures { ShowsLines self.old.is_cut (W.contents self.old.writer) self.new.is_cut (W.contents self.new.writer)
            self.new.line.items (unshown (self.old.line.items ++ visible (last_byte self.old.line.items) byte ∷ [])) }
    {
        let shown = visible(last_byte(&self.line), byte);
        if self.line.push(shown).is_err() {
            self.is_cut = true;
        }
    }

    fn show_byte(&mut self, byte: u8)
        ensures { ShowsLines self.old.is_cut (W.contents self.old.writer) self.new.is_cut (W.contents self.new.writer)
            self.new.line.items (after_byte self.old.line.items byte) }
    {
        match byte {
            b'\n' | b'\r' => self.end_line(byte),
            _ => self.add(byte),
        }
    }

    // Adds a text to the current line.
    fn show(&mut self, text: &[u8])
        ensures { ShowsLines self.old.is_cut (W.contents self.old.writer) self.new.is_cut (W.contents self.new.writer)
            self.new.line.items (after_text self.old.line.items text.now) }
    {
        let mut rest = text;
        while let Some((byte, tail)) = rest.split_first() {
            self.show_byte(*byte);
            rest = tail;
        }
    }

    // Writes the current line, if it isn't empty.
    fn end(&mut self)
        ensures { ShowsLines self.old.is_cut (W.contents self.old.writer) self.new.is_cut (W.contents self.new.writer)
            self.new.line.items (ended self.old.line.items) }
    {
        if !self.line.is_empty() {
            self.end_line(b'\n');
        }
    }

    // Shows an error message on lines of its own.
    fn show_error(&mut self, text: &[u8])
        ensures { ShowsLines self.old.is_cut (W.contents self.old.writer) self.new.is_cut (W.contents self.new.writer)
            self.new.line.items (shown_of true self.old.line.items text.now) }
    {
        self.end();
        self.show(text);
        self.end();
    }
}

impl<W: Write + Drop> Listener for RemoteLines<W> {
    ghost receives = { λ l is_error text n. ShowsLines l.is_cut (W.contents l.writer) n.is_cut (W.contents n.writer) n.line.items
        (shown_of is_error l.line.items text) };

    fn hear(&mut self, is_error: bool, text: &[u8]) {
        if is_error {
            self.show_error(text);
        } else {
            self.show(text);
        }
    }
}

impl<W: Write + Drop> Drop for RemoteLines<W> {
    // Writes the last line, if the server didn't end it.
    fn drop(mut self) {
        self.end();
        let RemoteLines {
            writer: _writer,
            line: _line,
            is_cut: _is_cut,
        } = self;
    }
}
