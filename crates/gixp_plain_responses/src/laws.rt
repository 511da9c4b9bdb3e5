//! Theorems about what a reader passes on. Each is a function without a body; its contract is the theorem.
ghost use Rattle.std.specs.Prelude.{◌≡◌, ℕ, List, take, true, false};
ghost use Rattle.gixp_packetline.specs.Frames.{Frame, End};
ghost use Rattle.gixp_packetline.specs.Grammar.{IsEnd};
ghost use Rattle.gixp_plain_responses.specs.Band.{IsBanded};
ghost use Rattle.gixp_plain_responses.specs.Detailed.{BeginWith, detailed_frames, acknowledged_ids, AreDetailed};
ghost use Rattle.gixp_plain_responses.specs.Translation.{begins_pack, translated};

/// Whole packet lines are passed on as the same packet lines, with each acknowledgement by `multi_ack_detailed`. This also
/// holds for a stream that is cut off after them.
pub fn packet_lines_are_detailed()
    ensures { (bytes rest : List ℕ) (frames : List Frame) → BeginWith bytes frames rest
        → BeginWith (translated bytes) (detailed_frames frames) (translated rest) }
{}

/// The packet lines that are passed on acknowledge the same ids in the same order, and none of them by `multi_ack`.
pub fn acknowledgements_are_same()
    ensures same { (frames : List Frame) → acknowledged_ids (detailed_frames frames) ≡ acknowledged_ids frames }
    ensures detailed { (frames : List Frame) → AreDetailed (detailed_frames frames) }
{}

/// Bytes after whole packet lines are passed on unchanged unless they are a pack: part of a packet line, or bytes that
/// begin none.
pub fn other_bytes_are_unchanged()
    ensures { (rest : List ℕ) (end : End) → IsEnd rest end → begins_pack (take 4 rest) ≡ false → translated rest ≡ rest }
{}

/// A pack in place of a packet line is passed on as packets of band 1, whose content joined is the pack up to the end of
/// the stream, and a flush packet. So a pack that is cut off is passed on like a whole one.
pub fn packs_are_banded()
    ensures { (pack : List ℕ) → begins_pack (take 4 pack) ≡ true → IsBanded pack (translated pack) }
{}
