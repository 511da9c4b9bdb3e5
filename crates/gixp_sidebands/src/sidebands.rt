//! The sideband reader: content on band 1, messages on bands 2 and 3.
ghost use Rattle.std.specs.Prelude.{◌≡◌, ℕ, Bool, List, true, false, Option, None, Some, Ok, OnOk, OnErr, IfOk, IfSome, [], ◌++◌, drop, take, length, min, string_bytes};
ghost use Rattle.std.specs.Option.{option_map};
ghost use Rattle.std.specs.Io.{ReadsAtMost, StartsWith};
ghost use Rattle.std.specs.Io.KnownBytes.{ReadConsumes};
ghost use Rattle.std.specs.Io.BufRead.{DropsConsumable, FillKeeps, Rests};
ghost use types.Logic.{sem};
ghost use mir.Syntax.{named};
ghost use Rattle.gixp_packetline.specs.Reading.{Reading, Reads, Peeks, ReadsLent, PeeksLent, ReadsText, PlainIf, PlainText, TakesLine, is_interrupted, refusal_of, reset_to};
ghost use Rattle.gixp_sidebands.specs.Bands.{FillsContent, ShowsFirst, ReadsContent, ReadsBytes, KeepsMessages, is_begun, place_after, shown, message_in, io_kind};
ghost use Rattle.gixp_sidebands.specs.Reporting.{Reported, ReportsPacket, refusal_in};

mod band;
mod front;
mod interrupt;

use band::{Band, band_of};
use front::Front;
use gixp_packetline::read::{Error, ExtendedBufRead};
use gixp_packetline::{MessageKind, Protocol};
use gixp_utils::without_line_end;
pub use interrupt::{Interrupt, InterruptFlag, NeverInterrupt};
use std::alloc::AllocError;
use std::io;
use std::io::{BufRead, ErrorKind, Read};

/// A listener for the texts of bands 2 and 3 (gitprotocol-pack, "Packfile Data").
pub trait BandText {
    // The listener before and after it took a text.
    ghost receives: { Self → Bool → List ℕ → Self → Type 0 };

    // The listener before and after an allocation failed for a text.
    ghost spares: { Self → Bool → List ℕ → Self → Type 0 };

    /// Receives the text of an error (band 3) or of progress (band 2), without one ending LF. The text is never empty.
    ///
    /// # Errors
    ///
    /// An allocation failed. The same text is reported again, so the listener should discard what it stored of it.
    fn band_text(&mut self, is_error: bool, text: &[u8]) -> Result<(), AllocError>
        ensures ok { OnOk result (receives self.old is_error text.now self.new) }
        ensures err { OnErr result (spares self.old is_error text.now self.new) };
}

/// Reads the content of a banded stream, and reports its messages (gitprotocol-pack, "Packfile Data").
///
/// The first byte of each packet is its band: 1 for content, 2 for progress, 3 for the text of an error, which doesn't
/// end the reading. Content can be read as lines, as bytes, or both. A text is reported to the listener without one
/// ending LF, unless it is empty; then its packet is taken, and the interrupt is called. A packet of band 1 without
/// content is skipped.
///
/// `Read` and `BufRead` end only at a flush packet (version 2: or a delimiter packet). Once a byte of a packet of
/// content was returned, the packet is taken from the transport: when the reader is dropped or returns the transport,
/// the rest of the packet is lost, and a call for lines goes on after it.
///
/// Besides the errors of the transport there are three:
///
/// - `BadBand`: the first byte of a packet is not a band. The packet is never taken, so every reader over this transport returns the same.
/// - `Interrupted`: the interrupt returned true. The text before it isn't reported again.
/// - `Memory`: an allocation of the listener failed. The same text is reported again.
pub struct WithSidebands<'a, 'i, T: ExtendedBufRead, P, I> {
    front: Front<'a, T>,
    progress: P,
    interrupt: &'i mut I,
    // The error of the last call of `Read` or `BufRead`.
    fault: Option<Error>,
}

impl<'a, 'i, T: ExtendedBufRead, P: Drop, I> WithSidebands<'a, 'i, T, P, I> {
    ghost use Rattle.gixp_sidebands.specs.Questions.{TakesTexts};
    ghost use Rattle.gixp_sidebands.specs.Sidebands.{side, listener, transport_of};

    /// Returns the transport. A packet that was begun is taken.
    pub fn into_transport(self) -> &'a mut T
        ensures same { result.ghost_name ≡ (side T.reading self.entry).name }
        ensures begun { is_begun (side T.reading self.entry).place ≡ true
            → TakesLine (side T.reading self.entry).reading (T.reading result.now) }
        ensures fresh { is_begun (side T.reading self.entry).place ≡ false → result.now ≡ transport_of self.entry }
    {
        let WithSidebands {
            front,
            progress: _progress,
            interrupt: _interrupt,
            fault: _fault,
        } = self;
        front.into_inner()
    }

    /// Returns the transport, as `into_transport` does, and the interrupt.
    pub fn into_parts(self) -> (&'a mut T, &'i mut I)
        ensures same { result.0.ghost_name ≡ (side T.reading self.entry).name }
        ensures begun { is_begun (side T.reading self.entry).place ≡ true
            → TakesLine (side T.reading self.entry).reading (T.reading result.0.now) }
        ensures fresh { is_begun (side T.reading self.entry).place ≡ false → result.0.now ≡ transport_of self.entry }
        ensures texts { IfSome (side T.reading self.entry).reading.to_come
            (TakesTexts 0 (side T.reading self.entry).reading (T.reading result.0.now)) }
        ensures same_interrupt { result.1.ghost_name ≡ self.entry.interrupt.ghost_name }
        ensures interrupt { result.1.now ≡ (listener self.entry).interrupt }
    {
        let WithSidebands {
            front,
            progress: _progress,
            interrupt,
            fault: _fault,
        } = self;
        (front.into_inner(), interrupt)
    }
}

impl<T: ExtendedBufRead, P: Drop, I> Drop for WithSidebands<'_, '_, T, P, I> {
    fn drop(self) {
        let WithSidebands {
            front,
            progress: _progress,
            interrupt: _interrupt,
            fault: _fault,
        } = self;
        let _ = front.into_inner();
    }
}

impl<'a, 'i, T: ExtendedBufRead, P: BandText + Drop, I: Interrupt> WithSidebands<'a, 'i, T, P, I> {
    ghost use Rattle.gixp_sidebands.specs.Sidebands.{side, sidebands_reading, sidebands_asks, listener, transport_of};

    /// Reads the content of this transport, and reports its messages. It allocates nothing, and reads nothing yet.
    pub fn new(transport: &'a mut T, progress: P, interrupt: &'i mut I) -> Self
        ensures side { side T.reading result ≡ record {
          place = None;
          name = transport.entry.ghost_name;
          asks = interrupt.entry.ghost_name;
          reading = T.reading transport.old;
          fault = None;
        } }
        ensures transport { transport_of result ≡ transport.old }
        ensures listener { listener result ≡ record { progress = progress; interrupt = interrupt.old } }
        ensures interrupt { result.interrupt.ghost_name ≡ interrupt.entry.ghost_name }
    {
        WithSidebands {
            front: Front::new(transport),
            progress,
            interrupt,
            fault: None,
        }
    }

    /// Calls the interrupt.
    pub fn interrupted(&mut self) -> bool
        ensures polls { I.polls (listener self.old).interrupt result (listener self.new).interrupt }
        ensures side { side T.reading self.new ≡ side T.reading self.old }
        ensures progress { (listener self.new).progress ≡ (listener self.old).progress }
        ensures interrupt { self.new.interrupt.ghost_name ≡ self.old.interrupt.ghost_name }
    {
        self.interrupt.is_interrupted()
    }

    /// The error of the last call of `Read` or `BufRead`. `None` where that call succeeded or there was none.
    pub fn fault(&self) -> Option<&Error>
        ensures { option_map (λ e. refusal_of e.now) result ≡ (side T.reading self.now).fault }
    {
        self.fault.as_ref()
    }

    /// Returns and clears the error that `fault` shows.
    pub fn take_fault(&mut self) -> Option<Error>
        ensures taken { option_map refusal_of result ≡ (side T.reading self.old).fault }
        ensures side { side T.reading self.new ≡ record (side T.reading self.old) { fault = None } }
        ensures listener { listener self.new ≡ listener self.old }
        ensures interrupt { self.new.interrupt.ghost_name ≡ self.old.interrupt.ghost_name }
    {
        self.fault.take()
    }

    /// Opens the next packet of content, if none is open, and returns true; `buffer` then lends its bytes. Returns
    /// false at a flush packet (version 2: or a delimiter packet). It takes no content.
    ///
    /// # Errors
    ///
    /// Those of the transport and of [`WithSidebands`], as I/O errors: `Io(kind)` as `kind`, `Memory` as `OutOfMemory`,
    /// `Interrupted` as `Other`, and all others as `InvalidData`. `fault` has the error itself.
    pub fn fill(&mut self) -> io::Result<bool>
        ensures fills { FillsContent (side T.reading self.old) (side T.reading self.new) result }
        ensures reported { Reported P.receives P.spares I.polls T.is_plain (side T.reading self.new).fault (side T.reading self.old).reading
            (side T.reading self.new).reading
            (listener self.old) (listener self.new) }
        ensures interrupt { self.new.interrupt.ghost_name ≡ self.old.interrupt.ghost_name }
    {
        self.fault = None;
        if self.front.is_open() {
            return Ok(true);
        }
        match self.skip_to_content() {
            Ok(more) => Ok(more),
            Err(e) => {
                let error = io::Error::from(io_kind(&e));
                self.fault = Some(e);
                Err(error)
            }
        }
    }

    /// The bytes of the open packet that were not yet returned.
    pub fn buffer(&self) -> &[u8]
        ensures { result.now ≡ shown (side T.reading self.now).place (side T.reading self.now).reading }
    {
        self.front.rest()
    }

    // Reports the text of the packet that was peeked at, takes the packet, and calls the interrupt.
    fn tell(&mut self, is_error: bool) -> Result<(), Error>
        requires peeked { (T.reading self.old.front.at.now).peeked ≡ true }
        requires nowhere { self.old.front.place ≡ None }
        ensures reports { ReportsPacket P.receives P.spares I.polls (message_in is_error (T.reading self.old.front.at.now).line)
            (T.reading self.old.front.at.now) (T.reading self.new.front.at.now) (listener self.old) (listener self.new) result }
        ensures same { self.new.front.at.ghost_name ≡ self.old.front.at.ghost_name }
        ensures interrupt { self.new.interrupt.ghost_name ≡ self.old.interrupt.ghost_name }
        ensures fault { self.new.fault ≡ self.old.fault }
        ensures place { self.new.front.place ≡ None }
    {
        let line = self.front.line();
        let text = match line {
            [_, text @ ..] => text,
            [] => line,
        };
        let text = without_line_end(text);
        if !text.is_empty() && self.progress.band_text(is_error, text).is_err() {
            return Err(Error::Memory);
        }
        self.front.take();
        if self.interrupt.is_interrupted() {
            return Err(Error::Interrupted);
        }
        Ok(())
    }

    // Takes a packet that was begun, reports the messages before the next content, and opens the packet of content.
    fn skip_to_content(&mut self) -> Result<bool, Error>
        ensures peeks { Peeks (sidebands_reading T.reading self.old) (sidebands_reading T.reading self.new) result }
        ensures reported { Reported P.receives P.spares I.polls T.is_plain (refusal_in result) (T.reading self.old.front.at.now)
            (T.reading self.new.front.at.now)
            (listener self.old) (listener self.new) }
        ensures same { self.new.front.at.ghost_name ≡ self.old.front.at.ghost_name }
        ensures interrupt { self.new.interrupt.ghost_name ≡ self.old.interrupt.ghost_name }
        ensures first { ShowsFirst (side T.reading self.old).reading (side T.reading self.new).reading result }
        ensures fault { self.new.fault ≡ self.old.fault }
        ensures place { self.new.front.place ≡ place_after result }
        ensures asks { sidebands_asks T.reading T.is_plain I.polls self.old (is_interrupted result) self.new }
    {
        self.front.leave();
        'packets: loop {
            if !self.front.peek()? {
                return Ok(false);
            }
            match band_of(self.front.line()) {
                Band::Content => {
                    self.front.open();
                    return Ok(true);
                }
                Band::Unknown(band) => return Err(Error::BadBand(band)),
                Band::Empty => self.front.take(),
                Band::Text(is_error) => self.tell(is_error)?,
            }
        }
    }
}

impl<'a, 'i, T: ExtendedBufRead, P: BandText + Drop, I: Interrupt> ExtendedBufRead
    for WithSidebands<'a, 'i, T, P, I> {
    ghost use Rattle.std.proofs.Common.{refl, inl, ◌∙◌};
    ghost use Rattle.gixp_sidebands.specs.QuestionsAgain.{asked-stays, below-joins};
    ghost use Rattle.gixp_sidebands.specs.Sidebands.{side, sidebands_reading, sidebands_asks, listener, PeeksAndReports, ReadsAndReports};

    ghost reading = { sidebands_reading T.reading };

    ghost is_plain = { false };

    ghost asks = { sidebands_asks T.reading T.is_plain I.polls };

    ghost stays = { λ r. (inl (asked-stays I.polls _ _), refl) };

    ghost joins = { λ a b c stops g h. (below-joins I.polls _ _ _ _ _ _ _ _ g.0 h.0, h.1 ∙ g.1) };

    fn next_line(&mut self) -> Result<bool, Error>
        ensures reads { Reads (sidebands_reading T.reading self.old) (sidebands_reading T.reading self.new) result }
        ensures plain { PlainIf false (sidebands_reading T.reading self.new) result }
        ensures reported { Reported P.receives P.spares I.polls T.is_plain (refusal_in result) (side T.reading self.old).reading
            (side T.reading self.new).reading
            (listener self.old) (listener self.new) }
        ensures fault { (side T.reading self.new).fault ≡ (side T.reading self.old).fault }
        ensures interrupt { self.new.interrupt.ghost_name ≡ self.old.interrupt.ghost_name }
        ensures asks { sidebands_asks T.reading T.is_plain I.polls self.old (is_interrupted result) self.new }
    {
        if !self.skip_to_content()? {
            return Ok(false);
        }
        self.front.take();
        Ok(true)
    }

    fn peek_line(&mut self) -> Result<bool, Error>
        ensures peeks { Peeks (sidebands_reading T.reading self.old) (sidebands_reading T.reading self.new) result }
        ensures plain { PlainIf false (sidebands_reading T.reading self.new) result }
        ensures reported { Reported P.receives P.spares I.polls T.is_plain (refusal_in result) (side T.reading self.old).reading
            (side T.reading self.new).reading
            (listener self.old) (listener self.new) }
        ensures first { ShowsFirst (side T.reading self.old).reading (side T.reading self.new).reading result }
        ensures place { (side T.reading self.new).place ≡ place_after result }
        ensures fault { (side T.reading self.new).fault ≡ (side T.reading self.old).fault }
        ensures interrupt { self.new.interrupt.ghost_name ≡ self.old.interrupt.ghost_name }
        ensures asks { sidebands_asks T.reading T.is_plain I.polls self.old (is_interrupted result) self.new }
    {
        self.skip_to_content()
    }

    fn line(&self) -> &[u8] {
        let line = self.front.line();
        match line {
            [_, content @ ..] => content,
            [] => line,
        }
    }

    fn peek_data_line(&mut self) -> Result<Option<&[u8]>, Error>
        ensures answers { (new : Reading) × PeeksLent (sidebands_reading T.reading self.old) new result × PlainIf false new result }
        ensures reported { PeeksAndReports T.reading P.receives P.spares I.polls T.is_plain self.old result }
    {
        match self.peek_line() {
            Ok(true) => Ok(Some(self.line())),
            Ok(false) => Ok(None),
            Err(e) => Err(e),
        }
    }

    fn readline(&mut self) -> Result<Option<&[u8]>, Error>
        ensures answers { (new : Reading) × ReadsLent (sidebands_reading T.reading self.old) new result × PlainIf false new result }
        ensures reported { ReadsAndReports T.reading P.receives P.spares I.polls T.is_plain self.old result }
    {
        match self.next_line() {
            Ok(true) => Ok(Some(self.line())),
            Ok(false) => Ok(None),
            Err(e) => Err(e),
        }
    }

    fn stopped_at(&self) -> Option<MessageKind> {
        self.front.stopped_at()
    }

    fn readline_str(&mut self, text: &mut String) -> Result<usize, Error>
        ensures text { ReadsText (sidebands_reading T.reading self.old) (sidebands_reading T.reading self.new) (string_bytes text.old)
            (string_bytes text.new) result }
        ensures plain { PlainText false (sidebands_reading T.reading self.old) (sidebands_reading T.reading self.new) result }
        ensures reported { Reported P.receives P.spares I.polls T.is_plain (refusal_in result) (side T.reading self.old).reading
            (side T.reading self.new).reading
            (listener self.old) (listener self.new) }
        ensures fault { (side T.reading self.new).fault ≡ (side T.reading self.old).fault }
        ensures interrupt { self.new.interrupt.ghost_name ≡ self.old.interrupt.ghost_name }
        ensures asks { sidebands_asks T.reading T.is_plain I.polls self.old (is_interrupted result) self.new }
    {
        if !self.peek_line()? {
            return Ok(0);
        }
        let Ok(line) = str::from_utf8(self.line()) else {
            self.front.take();
            return Err(Error::NotUtf8);
        };
        let len = line.len();
        if text.push_str(line).is_err() {
            return Err(Error::Memory);
        }
        self.front.take();
        Ok(len)
    }

    fn reset(&mut self, version: Protocol)
        ensures reading { sidebands_reading T.reading self.new ≡ reset_to version (sidebands_reading T.reading self.old) }
        ensures listener { listener self.new ≡ listener self.old }
        ensures fault { (side T.reading self.new).fault ≡ (side T.reading self.old).fault }
        ensures place { (side T.reading self.new).place ≡ (side T.reading self.old).place }
        ensures interrupt { self.new.interrupt.ghost_name ≡ self.old.interrupt.ghost_name }
        ensures asks { sidebands_asks T.reading T.is_plain I.polls self.old false self.new }
    {
        self.front.reset(version);
    }
}

impl<'a, 'i, T: ExtendedBufRead, P: BandText + Drop, I: Interrupt> Read
    for WithSidebands<'a, 'i, T, P, I> {
    ghost use Rattle.gixp_sidebands.specs.Sidebands.{side, listener};

    fn read(&mut self, buf: &mut [u8]) -> io::Result<usize>
        ensures bound { ReadsAtMost result buf.new }
        ensures bytes { ReadConsumes None None result buf.new }
        ensures content { ReadsContent (side T.reading self.old) (side T.reading self.new) result buf.new }
        ensures reported { Reported P.receives P.spares I.polls T.is_plain (side T.reading self.new).fault (side T.reading self.old).reading
            (side T.reading self.new).reading
            (listener self.old) (listener self.new) }
        ensures interrupt { self.new.interrupt.ghost_name ≡ self.old.interrupt.ghost_name }
    {
        if !self.fill()? {
            return Ok(0);
        }
        let count = copy_front(self.front.rest(), buf);
        self.front.advance(count);
        Ok(count)
    }
}

impl<'a, 'i, T: ExtendedBufRead, P: BandText + Drop, I: Interrupt> BufRead
    for WithSidebands<'a, 'i, T, P, I> {
    ghost use Rattle.gixp_sidebands.specs.Sidebands.{side, listener, LendsFrom};
    ghost use Rattle.gixp_sidebands.specs.contracts.sidebands.WithSidebands.{the_row};

    fn fill_buf(&mut self) -> io::Result<&[u8]>
        ensures front { IfSome None (λ (xs : List ℕ). IfOk result (λ s. StartsWith xs s.now)) }
        ensures end { IfSome None (λ (xs : List ℕ). IfOk result (λ s. length s.now ≡ 0 → xs ≡ [])) }
        ensures* after_borrow { sem 𝓛 (Rests (the_row (record { mir = named 1; lft = [] })
            (record { mir = named 2; lft = [] }) T.row P.row I.row T.ExtendedBufRead) self.entry (λ new.
            FillKeeps None None None result)) }
        ensures shown { LendsFrom T.reading P.receives P.spares I.polls T.is_plain self.old result }
    {
        match self.fill() {
            Ok(_) => Ok(self.front.rest()),
            Err(e) => Err(e),
        }
    }

    fn consume(&mut self, amount: usize)
        ensures bytes { DropsConsumable None None None amount }
        ensures content { ReadsBytes (side T.reading self.old) (side T.reading self.new)
            (take amount (shown (side T.reading self.old).place (side T.reading self.old).reading)) }
        ensures reported { listener self.new ≡ listener self.old }
        ensures messages { KeepsMessages (side T.reading self.old).reading (side T.reading self.new).reading }
        ensures interrupt { self.new.interrupt.ghost_name ≡ self.old.interrupt.ghost_name }
    {
        self.fault = None;
        self.front.advance(amount);
    }
}

// Copies as many bytes as both have, and returns their number.
fn copy_front(from: &[u8], to: &mut [u8]) -> usize
    ensures count { result ≡ min (length from.now) (length to.old) }
    ensures copied { to.new ≡ take result from.now ++ drop result to.old }
{
    let count = from.len().min(to.len());
    to[..count].copy_from_slice(&from[..count]);
    count
}

// The I/O error that `Read` and `BufRead` return for this error.
fn io_kind(e: &Error) -> ErrorKind
    ensures { result ≡ io_kind (refusal_of e.now) }
{
    match e {
        Error::Io(kind) => *kind,
        Error::Memory => ErrorKind::OutOfMemory,
        Error::Interrupted => ErrorKind::Other,
        _ => ErrorKind::InvalidData,
    }
}
