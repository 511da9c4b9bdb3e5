//! Requests with failing responses, reference advertisements, updates of a handshake, and texts of errors.

mod advertisements;
mod answers;
mod errors;
mod requests;
