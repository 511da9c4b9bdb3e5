//! A transport that passes each line that it reads to an observer.
ghost use Rattle.std.specs.Prelude.{◌≡◌, ℕ, List, Option, ⊤};
ghost use Rattle.gixp_packetline.specs.declared.protocol.MessageKind.{MessageKind};

use bstr::BStr;
use gixp_capabilities::client::Error;
use gixp_packetline::{ExtendedBufRead, MessageKind, Protocol, read};
use gixp_transport::{Account, Service, SetServiceResponse, Transport};
use std::alloc::Global;

/// An observer of the lines that a transport reads.
///
/// An implementation has nothing to prove: `sees` and `ends` have defaults, so the methods are enough.
pub trait LineObserver {
    /// How `line` changes the observer: before, the line, after. The default allows any change.
    ghost sees: { Self → List ℕ → Self → Type 0 } = { λ _ _ _. ⊤ };

    /// How `end` changes the observer: before, the packet that ended the lines, after. The default allows any change.
    ghost ends: { Self → Option MessageKind → Self → Type 0 } = { λ _ _ _. ⊤ };

    /// Receives a line that was read, with its LF.
    fn line(&mut self, line: &[u8])
        ensures { sees self.old line.now self.new };

    /// Receives the end of the lines: the packet that the reader is at, or `None` if the read failed.
    fn end(&mut self, stop: Option<MessageKind>)
        ensures { ends self.old stop self.new };
}

/// A transport that passes each line that it reads, and the end of the lines, to an observer. It forwards every call to the
/// transport inside. A line that is only peeked at isn't passed.
#[derive(Drop)]
pub struct Tap<T, O> {
    pub(crate) inner: T,
    pub(crate) observer: O,
}

impl<T, O> Tap<T, O> {
    /// A transport that passes the lines of `inner` to the observer.
    pub fn new(inner: T, observer: O) -> Tap<T, O>
        ensures inner { result.inner ≡ inner }
        ensures observer { result.observer ≡ observer }
    {
        Tap { inner, observer }
    }

    /// The observer.
    pub fn observer(&self) -> &O
        ensures { result.now ≡ self.now.observer }
    {
        &self.observer
    }
}

impl<T, O: Drop> Tap<T, O> {
    /// Returns the transport alone. The observer is dropped.
    pub fn into_inner(self) -> T
        ensures { result ≡ self.inner }
    {
        let Tap {
            inner,
            observer: _observer,
        } = self;
        inner
    }
}

impl<T: ExtendedBufRead, O: LineObserver> Tap<T, O> {
    // Passes the line that was read to the observer.
    fn report_line(&mut self)
        ensures inner { self.new.inner ≡ self.old.inner }
        ensures observer { O.sees self.old.observer (T.reading self.old.inner).line self.new.observer }
    {
        self.observer.line(self.inner.line());
    }

    // Passes the packet that ended the lines to the observer.
    fn report_end(&mut self)
        ensures inner { self.new.inner ≡ self.old.inner }
        ensures observer { O.ends self.old.observer (T.reading self.old.inner).stopped self.new.observer }
    {
        self.observer.end(self.inner.stopped_at());
    }
}

impl<T: ExtendedBufRead, O: LineObserver> ExtendedBufRead for Tap<T, O> {
    ghost reading = { λ tap. T.reading tap.inner };

    ghost is_plain = { T.is_plain };

    ghost asks = { λ tap stops after. T.asks tap.inner stops after.inner };

    fn next_line(&mut self) -> Result<bool, read::Error> {
        match self.inner.next_line() {
            Ok(true) => {
                self.report_line();
                Ok(true)
            }
            Ok(false) => {
                self.report_end();
                Ok(false)
            }
            Err(e) => {
                self.observer.end(None);
                Err(e)
            }
        }
    }

    fn peek_line(&mut self) -> Result<bool, read::Error> {
        match self.inner.peek_line() {
            Ok(true) => Ok(true),
            Ok(false) => {
                self.report_end();
                Ok(false)
            }
            Err(e) => {
                self.observer.end(None);
                Err(e)
            }
        }
    }

    fn line(&self) -> &[u8] {
        self.inner.line()
    }

    fn stopped_at(&self) -> Option<MessageKind> {
        self.inner.stopped_at()
    }

    fn reset(&mut self, version: Protocol) {
        self.inner.reset(version);
    }

    ghost stays = { λ tap. T.stays tap.inner };

    ghost joins = { λ a b c stops g h. T.joins a.inner b.inner c.inner stops g h };
}

impl<T: Transport, O: LineObserver> Transport for Tap<T, O> {
    fn connection_persists_across_multiple_requests(&self) -> bool {
        self.inner.connection_persists_across_multiple_requests()
    }

    fn to_url(&self) -> BStr<'_> {
        self.inner.to_url()
    }

    fn supported_protocol_versions(&self) -> &[Protocol] {
        self.inner.supported_protocol_versions()
    }

    fn set_identity(&mut self, account: Account) -> Result<(), Error> {
        self.inner.set_identity(account)
    }

    fn handshake(
        &mut self,
        alloc: Global,
        service: Service,
        extra_parameters: &[(String, Option<String>)],
    ) -> Result<SetServiceResponse, Error> {
        self.inner.handshake(alloc, service, extra_parameters)
    }

    fn begin_request(&mut self) -> Result<(), Error> {
        self.inner.begin_request()
    }

    fn write_text(&mut self, line: &[u8]) -> Result<(), Error> {
        self.inner.write_text(line)
    }

    fn write_message(&mut self, kind: MessageKind) -> Result<(), Error> {
        self.inner.write_message(kind)
    }

    fn end_request(&mut self) -> Result<(), Error> {
        self.inner.end_request()
    }
}
