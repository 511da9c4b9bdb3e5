//! Ref maps and handshakes: writes and reads that fail, and the flush packet that ends a conversation.

mod errors;
mod flushes;
mod maps;
mod shakes;
