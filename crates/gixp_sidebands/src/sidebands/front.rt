//! A transport, and the offset in its open packet.
ghost use Rattle.std.specs.Prelude.{◌≡◌, ◌+◌, ◌<◌, true, false, None, Some, take, is_some};
ghost use Rattle.gixp_sidebands.specs.Bands.{is_held, is_begun, shown, HandsOut};
ghost use Rattle.gixp_packetline.specs.Reading.{Peeks, PlainIf, TakesLine, reset_to};

use gixp_packetline::read::{Error, ExtendedBufRead};
use gixp_packetline::{MessageKind, Protocol};

/// A transport, and the offset in its open packet: a packet of band 1 that was peeked at, and whose bytes are being returned.
///
/// A packet counts as taken once a byte of it was returned. So this type has no destructor; `into_inner` takes such a packet.
pub(crate) struct Front<'a, T: ExtendedBufRead> {
    at: &'a mut T,
    // How many bytes of the open packet were returned; `None` where no packet is open.
    place: Option<usize>,
    ghost held: { is_held place (T.reading at.now) ≡ true },
}

impl<'a, T: ExtendedBufRead> Front<'a, T> {
    pub(crate) fn new(at: &'a mut T) -> Front<'a, T>
        ensures same { result.at.ghost_name ≡ at.entry.ghost_name }
        ensures now { result.at.now ≡ at.old }
        ensures place { result.place ≡ None }
    {
        Front { at, place: None }
    }

    /// Returns the transport. A packet that was begun is taken.
    pub(crate) fn into_inner(mut self) -> &'a mut T
        ensures same { result.ghost_name ≡ self.entry.at.ghost_name }
        ensures begun { is_begun self.entry.place ≡ true → TakesLine (T.reading self.entry.at.now) (T.reading result.now) }
        ensures fresh { is_begun self.entry.place ≡ false → result.now ≡ self.entry.at.now }
    {
        self.leave();
        let Front { at, place: _place } = self;
        at
    }

    /// Takes the open packet if a byte of it was returned.
    pub(crate) fn leave(&mut self)
        ensures same { self.new.at.ghost_name ≡ self.old.at.ghost_name }
        ensures begun { is_begun self.old.place ≡ true → TakesLine (T.reading self.old.at.now) (T.reading self.new.at.now) }
        ensures fresh { is_begun self.old.place ≡ false → self.new.at.now ≡ self.old.at.now }
        ensures place { self.new.place ≡ None }
    {
        let handed = self.place.unwrap_or(0);
        self.place = None;
        if handed > 0 {
            let _ = self.at.next_line();
        }
    }

    pub(crate) fn peek(&mut self) -> Result<bool, Error>
        requires { self.old.place ≡ None }
        ensures same { self.new.at.ghost_name ≡ self.old.at.ghost_name }
        ensures peeks { Peeks (T.reading self.old.at.now) (T.reading self.new.at.now) result }
        ensures plain { PlainIf T.is_plain (T.reading self.new.at.now) result }
        ensures place { self.new.place ≡ None }
    {
        self.at.peek_line()
    }

    /// The line that was peeked at or taken.
    pub(crate) fn line(&self) -> &[u8]
        ensures { result.now ≡ (T.reading self.now.at.now).line }
    {
        self.at.line()
    }

    /// Takes the line that was peeked at.
    pub(crate) fn take(&mut self)
        requires { (T.reading self.old.at.now).peeked ≡ true }
        ensures same { self.new.at.ghost_name ≡ self.old.at.ghost_name }
        ensures takes { TakesLine (T.reading self.old.at.now) (T.reading self.new.at.now) }
        ensures place { self.new.place ≡ None }
    {
        self.place = None;
        let _ = self.at.next_line();
    }

    /// The flush or delimiter packet that the transport is at.
    pub(crate) fn stopped_at(&self) -> Option<MessageKind>
        ensures { result ≡ (T.reading self.now.at.now).stopped }
    {
        self.at.stopped_at()
    }

    /// Goes on after the flush or delimiter packet.
    pub(crate) fn reset(&mut self, version: Protocol)
        ensures same { self.new.at.ghost_name ≡ self.old.at.ghost_name }
        ensures reset { T.reading self.new.at.now ≡ reset_to version (T.reading self.old.at.now) }
        ensures place { self.new.place ≡ self.old.place }
    {
        self.at.reset(version);
    }

    pub(crate) fn is_open(&self) -> bool
        ensures { result ≡ is_some self.now.place }
    {
        self.place.is_some()
    }

    /// The bytes of the open packet that were not yet returned.
    pub(crate) fn rest(&self) -> &[u8]
        ensures { result.now ≡ shown self.now.place (T.reading self.now.at.now) }
    {
        match self.place {
            Some(handed) => &self.at.line()[handed + 1..],
            None => &[],
        }
    }

    /// Returns this many bytes of the open packet, or all of them. The last byte takes the packet.
    pub(crate) fn advance(&mut self, amount: usize)
        ensures same { self.new.at.ghost_name ≡ self.old.at.ghost_name }
        ensures hands_out { HandsOut self.old.place (T.reading self.old.at.now)
            (take amount (shown self.old.place (T.reading self.old.at.now)))
            self.new.place (T.reading self.new.at.now) }
    {
        let Some(handed) = self.place else { return };
        let left = self.at.line().len() - handed - 1;
        if amount < left {
            self.place = Some(handed + amount);
        } else {
            self.take();
        }
    }

    /// Opens the packet of content that was peeked at.
    pub(crate) fn open(&mut self)
        requires { is_held (Some 0) (T.reading self.old.at.now) ≡ true }
        ensures same { self.new.at.ghost_name ≡ self.old.at.ghost_name }
        ensures now { self.new.at.now ≡ self.old.at.now }
        ensures place { self.new.place ≡ Some 0 }
    {
        self.place = Some(0);
    }
}
