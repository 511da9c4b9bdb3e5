//! A consumer that leaves the pack to the caller.
ghost use Rattle.std.specs.Prelude.{◌≡◌, Ok, false};
ghost use Rattle.gixp_engine.specs.Leave.{leaves_owes};

use bstr::BStr;
use gixp_fetch::WithSidebands;
use gixp_fetch::consume::ConsumePack;
use gixp_packetline::{ExtendedBufRead, ServerMessage};
use gixp_progress::Progress;
use gixp_sidebands::Interrupt;

/// Consumes nothing of a pack, so that the caller reads the pack itself. It also prevents reads of the rest of the response.
#[derive(Clone, Copy, Debug)]
pub struct LeavePack;

/// The error of `LeavePack`, which never fails.
#[derive(Clone, Copy, Debug, Drop)]
pub struct Left;

impl<P> ConsumePack<P> for LeavePack {
    type Error = Left;

    ghost consumes = { λ c s p r d t q. (r ≡ Ok false) × (t ≡ s) };

    fn consume_pack<T: ExtendedBufRead, Q: Progress + Drop, I: Interrupt>(
        &mut self,
        _reader: &mut WithSidebands<'_, T, Q, I>,
        _progress: &mut P,
    ) -> Result<bool, Left> {
        Ok(false)
    }

    ghost owes = { λ c s p r d t q h. leaves_owes s t h.1 };
}

impl ServerMessage for Left {
    ghost use Rattle.std.specs.Prelude.{None};

    ghost message = { λ _. None };

    fn server_message(&self) -> Option<BStr<'_>> {
        None
    }
}
