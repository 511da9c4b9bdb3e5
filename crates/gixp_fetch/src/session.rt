//! The values that the steps of a fetch share.
use gixp_packetline::Protocol;
use std::alloc::Global;

/// The transport, the progress reporter and the interrupt of a fetch.
#[derive(Drop)]
pub(crate) struct FetchSession<'t, 'p, 'i, T, P, I> {
    pub(crate) alloc: Global,
    pub(crate) transport: &'t mut T,
    pub(crate) version: Protocol,
    /// Whether whole responses are in a sideband, not only the pack.
    pub(crate) sideband_all: bool,
    pub(crate) progress: &'p mut P,
    pub(crate) interrupt: &'i mut I,
}
