//! Equality and order of versions; equality of packet lines, of their kinds and errors, and of messages.
ghost use Rattle.std.specs.Prelude.{◌≡◌, ◌↔◌, IsTrue};
ghost use Rattle.std.specs.Ordering.{nat_cmp};
ghost use Rattle.gixp_packetline.specs.Order.{version_number};
ghost use Rattle.gixp_packetline.specs.PacketLine.{frame_of};

use crate::packet::{Frame, PacketError};
use crate::packet_line::PacketLine;
use crate::packets::Place;
use crate::protocol::{MessageKind, Protocol};
use std::cmp::Ordering;

fn is_same_version(a: &Protocol, b: &Protocol) -> bool
    ensures { IsTrue result ↔ (a.now ≡ b.now) }
{
    a == b
}

fn order_of_versions(first: &Protocol, second: &Protocol) -> Ordering
    ensures { result ≡ nat_cmp (version_number first.now) (version_number second.now) }
{
    first.cmp(second)
}

fn is_same_message(left: &MessageKind, right: &MessageKind) -> bool
    ensures { IsTrue result ↔ (left.now ≡ right.now) }
{
    left == right
}

fn is_same_frame(one: &Frame, other: &Frame) -> bool
    ensures { IsTrue result ↔ (one.now ≡ other.now) }
{
    one == other
}

fn is_same_packet_error(x: &PacketError, y: &PacketError) -> bool
    ensures { IsTrue result ↔ (x.now ≡ y.now) }
{
    x == y
}

// Packet lines are equal exactly where their payloads are, or their kinds where they have none.
fn is_same_packet_line(line: &PacketLine<'_>, next: &PacketLine<'_>) -> bool
    ensures { IsTrue result ↔ (frame_of line.now ≡ frame_of next.now) }
{
    line == next
}

fn is_same_place(old: &Place, new: &Place) -> bool
    ensures { IsTrue result ↔ (old.now ≡ new.now) }
{
    old == new
}
