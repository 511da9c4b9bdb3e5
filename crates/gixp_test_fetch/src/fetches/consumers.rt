//! Consumers that stop early.
ghost use Rattle.std.specs.Prelude.{◌≡◌, ℕ, List};
ghost use Rattle.gixp_sidebands.specs.Bands.{side_reading};
ghost use Rattle.gixp_fetch.specs.Receive.{ReadsOn};

use gixp_fetch::WithSidebands;
use gixp_fetch::consume::{ConsumePack, CopyError};
use gixp_packetline::{ExtendedBufRead, read};
use gixp_progress::Progress;
use gixp_sidebands::Interrupt;
use std::io::{ErrorKind, Read};

/// What a consumer does after its byte.
#[derive(Clone, Copy)]
pub(crate) enum ConsumerAnswer {
    ReadOn,
    Leave,
    Refuse,
}

/// Takes one byte of the pack.
#[derive(Drop)]
pub(crate) struct Taste {
    pub(crate) polls: ConsumerAnswer,
    pub(crate) byte: [u8; 1],
}

impl<P> ConsumePack<P> for Taste {
    type Error = CopyError;

    ghost consumes = { λ c s p r d t q. (read : List ℕ) × ReadsOn s t read × ((side_reading t).held ≡ (side_reading s).held) };

    #[tactic(auto, using(crate::proofs::Taste::reads_on))]
    fn consume_pack<T: ExtendedBufRead, Q: Progress + Drop, I: Interrupt>(
        &mut self,
        reader: &mut WithSidebands<'_, T, Q, I>,
        _progress: &mut P,
    ) -> Result<bool, CopyError> {
        match reader.read(&mut self.byte) {
            Ok(_) => {}
            Err(e) => return Err(CopyError::Read(read::Error::Io(e.kind()))),
        }
        match self.polls {
            ConsumerAnswer::ReadOn => Ok(true),
            ConsumerAnswer::Leave => Ok(false),
            ConsumerAnswer::Refuse => Err(CopyError::Write(ErrorKind::Other)),
        }
    }

    ghost owes = { λ c s p r d t q h. h };
}
