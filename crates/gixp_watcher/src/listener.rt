//! A listener that counts messages.
use gix_protocol::client::Listener;

/// Counts the server's messages.
#[derive(Clone, Copy, Debug, Drop)]
pub struct Counted {
    /// The number of progress messages (band 2).
    pub progress: u64,
    /// The number of error messages (band 3).
    pub errors: u64,
}

impl Counted {
    /// No messages yet.
    pub fn new() -> Counted {
        Counted {
            progress: 0,
            errors: 0,
        }
    }
}

impl Listener for Counted {
    fn hear(&mut self, is_error: bool, _text: &[u8]) {
        if is_error {
            self.errors = self.errors.saturating_add(1);
        } else {
            self.progress = self.progress.saturating_add(1);
        }
    }
}
