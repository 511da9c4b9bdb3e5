//! Packet lines, sidebands and transports over failing devices, the rest of a reader that is returned, and texts of errors.

mod bands;
mod errors;
mod readers;
mod transports;
