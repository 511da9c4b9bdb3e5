//! Whether the pack follows the server's `ready` (gitprotocol-v2, "fetch").
ghost use Rattle.std.specs.Prelude.{◌≡◌, ◌≢◌, codes, MatchResult};
ghost use Rattle.gixp_remote_session.specs.Readiness.{after_line, after_end};
ghost use Rattle.gixp_remote_session.specs.Errors.{ErrorIsFatal};

use crate::error::Error;
use gix_protocol::transport::MessageKind;

/// Whether the server is ready to send the pack.
#[derive(Clone, Copy, Debug, PartialEq, Eq)]
pub(crate) enum Readiness {
    /// It isn't ready.
    Unready,
    /// It is ready: a delimiter packet and the pack must follow.
    Ready,
    /// Another packet followed `ready`, or the stream ended.
    PackMissing,
}

impl Readiness {
    /// The state after a line.
    pub(crate) fn after_line(self, line: &[u8]) -> Readiness
        ensures { result ≡ after_line self line.now }
    {
        match self {
            Readiness::Unready => {
                if line == b"ready".as_slice() || line == b"ready\n".as_slice() {
                    Readiness::Ready
                } else {
                    Readiness::Unready
                }
            }
            Readiness::Ready => Readiness::Ready,
            Readiness::PackMissing => Readiness::PackMissing,
        }
    }

    /// The state after the end of the lines: a flush, delimiter or response-end packet, or `None`
    /// if the stream ended.
    pub(crate) fn after_end(self, stop: Option<MessageKind>) -> Readiness
        ensures { result ≡ after_end self stop }
    {
        match (self, stop) {
            (Readiness::Ready, Some(MessageKind::Delimiter)) => Readiness::Unready,
            (Readiness::Ready, _) => Readiness::PackMissing,
            (Readiness::Unready, _) => Readiness::Unready,
            (Readiness::PackMissing, _) => Readiness::PackMissing,
        }
    }

    /// Fails if the pack is missing.
    pub(crate) fn expect_pack(self) -> Result<(), Error>
        ensures { MatchResult result (λ _. self ≢ Readiness.PackMissing)
            (λ e. (self ≡ Readiness.PackMissing) × ErrorIsFatal (codes "expected packfile to be sent after 'ready'") e) }
    {
        if self == Readiness::PackMissing {
            Err(Error::Fatal("expected packfile to be sent after 'ready'"))
        } else {
            Ok(())
        }
    }
}
