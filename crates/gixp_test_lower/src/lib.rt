//! Tests of the crates up to requests, the commit graph with its negotiators and repositories in memory, and refspecs, for what
//! neither test vectors nor clauses can say. All functions are tests or serve tests.
#![tactic(auto)]

#[cfg(test)]
mod fetch;
#[cfg(test)]
mod graph;
#[cfg(test)]
mod memory;
#[cfg(test)]
mod negotiators;
#[cfg(test)]
mod packfile_uris;
#[cfg(test)]
mod pieces;
#[cfg(test)]
mod plain_requests;
#[cfg(test)]
mod plain_responses;
#[cfg(test)]
mod reachable;
#[cfg(test)]
mod refspecs;
#[cfg(test)]
mod response_end;
#[cfg(test)]
mod shown;
#[cfg(test)]
mod streams;
