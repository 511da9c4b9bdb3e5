//! The state of a reader of an advertisement.
ghost use Rattle.std.specs.Prelude.{vec_len};
ghost use Rattle.gixp_plain_requests.specs.Room.{IsNamedRoom};

use crate::missing::Missing;
use std::alloc::Global;

/// Space for the line `version 1` and the longest packet line.
pub(crate) const ROOM: usize = 65540;

/// The output of a server, in which the first ref line of the reference advertisement also has the capabilities
/// `multi_ack_detailed`, `side-band-64k` and `include-tag`, if the server lacks them (gitprotocol-pack, "Reference
/// Discovery").
///
/// The output of a server of version 2 is unchanged. The reader never reads beyond that line unless the caller does.
#[derive(Drop)]
pub struct NamedCapabilities<R> {
    pub(crate) alloc: Global,
    pub(crate) reader: R,
    // The bytes from `start` to `end` were read and not yet passed on.
    pub(crate) room: Vec<u8>,
    pub(crate) start: usize,
    pub(crate) end: usize,
    // Whether they have the names.
    pub(crate) is_named: bool,
    pub(crate) missing: Missing,
    ghost in_order: { IsNamedRoom (vec_len room) start end is_named },
}
