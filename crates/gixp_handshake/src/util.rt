//! The end of a conversation with a server.
ghost use Rattle.std.specs.Prelude.{◌≡◌, true, false};
ghost use Rattle.gixp_handshake.specs.Ending.{EndsInteraction, EndsOnce};

use gixp_capabilities::client;
use gixp_transport::{Message, Transport};

/// Sends a flush packet over a connection: no more requests follow (gitprotocol-v2, "Command Request";
/// gitprotocol-pack, "Packfile Negotiation"). Sends nothing over a transport that doesn't persist.
///
/// # Errors
///
/// `Io` where this write or an earlier one failed. The connection stays broken.
pub fn indicate_end_of_interaction<T: Transport>(transport: &mut T) -> Result<(), client::Error>
    ensures { EndsInteraction (T.reading transport.old) (T.reading transport.new) result }
{
    if !transport.connection_persists_across_multiple_requests() {
        return Ok(());
    }
    transport.request(&[Message::Flush])
}

// Sends the flush packet, unless it was sent before.
fn end_once<T: Transport>(transport: &mut T, is_sent: bool) -> Result<(), client::Error>
    ensures { EndsOnce is_sent (T.reading transport.old) (T.reading transport.new) result }
{
    if is_sent {
        return Ok(());
    }
    indicate_end_of_interaction(transport)
}

/// A transport that sends a flush packet when it is dropped, unless it was sent before. At most one is sent, and none
/// over a transport that doesn't persist.
pub struct SendFlushOnDrop<T: Transport + Drop> {
    /// The wrapped transport.
    pub inner: T,
    is_sent: bool,
}

impl<T: Transport + Drop> SendFlushOnDrop<T> {
    ghost use Rattle.std.specs.Prelude.{◌≡◌, true, false};
    ghost use Rattle.gixp_handshake.specs.Ending.{EndsOnce, was_sent};

    /// Wraps this transport. No flush packet was sent yet.
    pub fn new(inner: T) -> SendFlushOnDrop<T>
        ensures inner { result.inner ≡ inner }
        ensures unsent { was_sent result ≡ false }
    {
        SendFlushOnDrop {
            inner,
            is_sent: false,
        }
    }

    /// Sends the flush packet now, unless it was sent before. It is never sent again.
    ///
    /// # Errors
    ///
    /// The same as for [`indicate_end_of_interaction`]. The flush packet counts as sent then too.
    pub fn indicate_end_of_interaction(&mut self) -> Result<(), client::Error>
        ensures ends { EndsOnce (was_sent self.old) (T.reading self.old.inner) (T.reading self.new.inner) result }
        ensures sent { was_sent self.new ≡ true }
    {
        let is_sent = self.is_sent;
        self.is_sent = true;
        end_once(&mut self.inner, is_sent)
    }
}

impl<T: Transport + Drop> Drop for SendFlushOnDrop<T> {
    fn drop(self) {
        let SendFlushOnDrop { mut inner, is_sent } = self;
        let _ = end_once(&mut inner, is_sent);
    }
}
