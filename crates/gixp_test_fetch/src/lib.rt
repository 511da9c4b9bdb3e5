//! Tests of a fetch and of its parts that test vectors can't express: devices and repositories that fail at each call,
//! consumers that stop early, second tries, boundaries in files, what is sent when a value is dropped, the calls of a progress
//! reporter, the updates of local refs, and the texts of errors. All functions are tests or serve tests.
#![tactic(auto)]

#[cfg(test)]
mod fetches;
#[cfg(test)]
mod handshakes;
#[cfg(test)]
mod negotiations;
#[cfg(test)]
mod shown;
#[cfg(test)]
mod transports;
#[cfg(test)]
mod updates;
