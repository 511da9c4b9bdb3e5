//! The receiver of a pack: it checks the pack as it comes, and keeps it if it is whole.
ghost use Rattle.std.specs.Prelude.{◌≡◌, None, IfOk, OnErr};
ghost use Rattle.gixp_fetch_common.specs.Received.{ReceivesPack, receives_owes, KeepsHeld, DropsHeld};

use crate::copy::copy_pack;
use crate::pack_place::PackPlace;
use crate::receive_error::ReceiveError;
use gix_protocol::fetch::{ConsumePack, WithSidebands};
use gix_protocol::transport::{ExtendedBufRead, Interrupt, Progress};
use gixp_pack::PackSummary;
use std::alloc::Global;
use std::io;

/// A pack that was written, and is whole.
#[derive(Drop)]
pub struct Whole<W> {
    pub writer: W,
    pub summary: PackSummary,
}

/// Receives a pack into its place. The pack gets its name only once it is whole, by `keep`.
#[derive(Drop)]
pub struct PackReceiver<P: PackPlace> {
    alloc: Global,
    place: P,
    // The last pack, if it is whole and not kept yet.
    whole: Option<Whole<P::Writer>>,
}

impl<P: PackPlace> PackReceiver<P> {
    /// No pack yet.
    pub fn new(alloc: Global, place: P) -> PackReceiver<P>
        ensures place { result.place ≡ place }
        ensures whole { result.whole ≡ None }
    {
        PackReceiver {
            alloc,
            place,
            whole: None,
        }
    }

    /// Keeps the pack and returns its summary, or none where no whole pack was received.
    ///
    /// # Errors
    ///
    /// Why the pack can't be kept. It is removed then.
    pub fn keep(&mut self) -> io::Result<Option<PackSummary>>
        ensures kept { IfOk result (λ kept. KeepsHeld P.keeps self.old.whole self.old.place kept self.new.place) }
        ensures refused { OnErr result (DropsHeld P.gives_up self.old.whole self.old.place self.new.place) }
        ensures over { self.new.whole ≡ None }
    {
        match self.whole.take() {
            Some(Whole { writer, summary }) => match self.place.keep(writer) {
                Ok(()) => Ok(Some(summary)),
                Err(e) => Err(e),
            },
            None => Ok(None),
        }
    }

    /// Removes the pack, if a whole one was received.
    pub fn give_up(&mut self)
        ensures given_up { DropsHeld P.gives_up self.old.whole self.old.place self.new.place }
        ensures over { self.new.whole ≡ None }
    {
        match self.whole.take() {
            Some(Whole { writer, summary: _ }) => self.place.give_up(writer),
            None => {}
        }
    }
}

impl<P: PackPlace, N> ConsumePack<N> for PackReceiver<P> {
    type Error = ReceiveError;

    ghost consumes = { λ c s p r d t q. ReceivesPack P.begins P.gives_up P.Writer.contents c.place s r d.whole d.place t };

    fn consume_pack<T: ExtendedBufRead, Q: Progress + Drop, I: Interrupt>(
        &mut self,
        reader: &mut WithSidebands<'_, T, Q, I>,
        _progress: &mut N,
    ) -> Result<bool, ReceiveError> {
        self.whole = None;
        let mut writer = match self.place.begin() {
            Ok(writer) => writer,
            Err(e) => return Err(ReceiveError::Begin(self.alloc, e.kind())),
        };
        match copy_pack(self.alloc, reader, &mut writer) {
            Ok(summary) => {
                self.whole = Some(Whole { writer, summary });
                Ok(true)
            }
            Err(e) => {
                self.place.give_up(writer);
                Err(e)
            }
        }
    }

    ghost owes = { λ c s p r d t q h. receives_owes P.begins P.gives_up P.Writer.contents c.place d.place s t r d.whole h };
}
