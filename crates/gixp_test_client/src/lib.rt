//! Tests of sessions that test vectors can't express: what a session sends and leaves, what listeners show, and the texts of
//! errors. Also tests of a planner over recorded sessions. All functions are tests or serve tests.
#![tactic(auto)]

#[cfg(test)]
mod as_git;
#[cfg(test)]
mod fetches;
#[cfg(test)]
mod growth;
#[cfg(test)]
mod lenient;
#[cfg(test)]
mod lines;
#[cfg(test)]
mod listeners;
#[cfg(test)]
mod names;
#[cfg(test)]
mod planner;
#[cfg(test)]
mod refusals;
#[cfg(test)]
mod servers;
#[cfg(test)]
mod sessions;
#[cfg(test)]
mod unreached;
#[cfg(test)]
mod unreadable;
