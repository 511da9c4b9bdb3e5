//! Theorems about the definitions. Each is a function without a body; its contract is the theorem.
ghost use Rattle.std.specs.Prelude.{◌≡◌, ℕ, List};
ghost use Rattle.gixp_packetline.specs.Frames.{Frame, End, ended, frames_of};
ghost use Rattle.gixp_packetline.specs.FrameText.{texts_of, AreLawful};
ghost use Rattle.gixp_packetline.specs.Grammar.{AreFrames};
ghost use Rattle.gixp_packetline.specs.Pieces.{Pieces};
ghost use Rattle.gixp_packetline.specs.Items.{plain, items_of, first_lines};
ghost use Rattle.gixp_packetline.specs.Lines.{lines_of, as_first};
ghost use Rattle.gixp_packetline.specs.declared.protocol.Protocol.{Protocol};

/// The computed packet lines of some bytes match the grammar.
pub fn frames_are_grammar()
    ensures { (bytes : List ℕ) → AreFrames bytes (frames_of bytes).list (frames_of bytes).end }
{}

/// The grammar allows no other packet lines for these bytes.
pub fn no_other_frames_are()
    ensures { (bytes : List ℕ) (frames : List Frame) (end : End) → AreFrames bytes frames end
        → frames_of bytes ≡ record { list = frames; end = end } }
{}

/// Packet lines that are written and read again are the same, and no byte is left over.
pub fn texts_read_back()
    ensures { (frames : List Frame) → AreLawful frames → frames_of (texts_of frames) ≡ record { list = frames; end = ended } }
{}

/// The lines that a reader returns next are the line items before the first stop among the stream's items.
pub fn lines_are_of_items()
    ensures { (version : Protocol) (ps : Pieces) → as_first version (lines_of version ps) ≡ first_lines (items_of version plain ps) }
{}
