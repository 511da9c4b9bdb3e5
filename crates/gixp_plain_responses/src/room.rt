//! The texts that are written where the bytes of a line or a pack were read.
ghost use Rattle.std.specs.Prelude.{◌≡◌, ◌+◌, ◌<◌, ◌≤◌, ◌++◌, length, take, drop, codes, slice_range, vec_len};
ghost use Rattle.gixp_plain_responses.specs.Acknowledgement.{common_text};
ghost use Rattle.gixp_plain_responses.specs.Band.{band_text, last_text};

use gixp_packetline::digits::encode_number;

// Writes a text at an offset.
pub(crate) fn write_at(room: &mut Vec<u8>, at: usize, text: &[u8])
    requires { at + length text.now ≤ vec_len room.old }
    ensures items { room.new.items ≡ take at room.old.items ++ text.now ++ drop (at + length text.now) room.old.items }
    ensures len { vec_len room.new ≡ vec_len room.old }
{
    room[at..at + text.len()].copy_from_slice(text);
}

/// Writes `common` in place of `continue` into the line that these bytes begin with.
pub(crate) fn write_common(room: &mut Vec<u8>)
    requires { 56 ≤ vec_len room.old }
    ensures text { take 56 room.new.items ≡ common_text (take 44 (drop 4 room.old.items)) }
    ensures len { vec_len room.new ≡ vec_len room.old }
{
    write_at(room, 0, b"0038");
    write_at(room, 48, b" common\n");
}

/// Writes the digits and the band before the content that begins at the fifth byte and ends here.
pub(crate) fn write_band(room: &mut Vec<u8>, end: usize)
    requires some { 5 ≤ end }
    requires fits { end ≤ 65520 }
    requires there { end ≤ vec_len room.old }
    ensures text { take end room.new.items ≡ band_text (slice_range room.old.items 5 end) }
    ensures len { vec_len room.new ≡ vec_len room.old }
{
    write_at(room, 0, &encode_number(end));
    write_at(room, 4, b"\x01");
}

/// Writes the last packet of a pack, if there is content for it, and a flush packet. Returns where they end.
pub(crate) fn write_last(room: &mut Vec<u8>, end: usize) -> usize
    requires some { 5 ≤ end }
    requires fits { end ≤ 65520 }
    requires there { end + 4 ≤ vec_len room.old }
    ensures text { take result room.new.items ≡ last_text (slice_range room.old.items 5 end) }
    ensures len { vec_len room.new ≡ vec_len room.old }
    ensures bound { result ≤ end + 4 }
{
    if end == 5 {
        write_at(room, 0, b"0000");
        return 4;
    }
    write_band(room, end);
    write_at(room, end, b"0000");
    end + 4
}
