//! The transports of git's fetch protocol, over a reader and a writer, and over memory; the server's advertisement; the
//! messages of a request.
#![tactic(auto)]

mod advertisement;
mod bodies;
mod command;
mod connection;
mod frame_text;
mod greeting;
mod message;
mod same;
mod service;
mod spurious;
mod transport;

pub use bodies::{Bodies, Body};
pub use connection::Connection;
pub use message::{Feature, MAX_LINE, Message, fits_line};
pub use service::{Account, Opening, Service, SetServiceResponse};
pub use spurious::IsSpuriousError;
pub use transport::Transport;
