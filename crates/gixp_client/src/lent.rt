//! `Listener` for a mutable reference.
use crate::listen::Listener;

/// Allows a caller to pass `&mut listener` to [`fetch_once`](crate::fetch_once), which takes its listener by value, and to read it
/// afterwards.
impl<L: Listener> Listener for &mut L {
    ghost receives = { λ a is_error text b. L.receives a.now is_error text b.now };

    fn hear(&mut self, is_error: bool, text: &[u8]) {
        Listener::hear(&mut **self, is_error, text)
    }
}
