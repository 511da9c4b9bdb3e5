//! Parses URLs as git does: the server and the path of a URL (git-clone, "GIT URLS").
#![tactic(auto)]

mod address;
mod decode;
mod host;
mod password;
mod text;

pub use address::{Address, Scheme, UrlError};
pub use password::redacted;
