//! Theorems about what a reader passes on. Each is a function without a body; its contract is the theorem.
ghost use Rattle.std.specs.Prelude.{◌≡◌, ℕ, List, ◌∷◌, ◌++◌};
ghost use Rattle.gixp_packetline.specs.Frames.{Frame, special, End};
ghost use Rattle.gixp_packetline.specs.Grammar.{AreFrames};
ghost use Rattle.gixp_packetline.specs.declared.protocol.MessageKind.TheVariants.{Flush, ResponseEnd};
ghost use Rattle.gixp_response_end.specs.Answers.{passed_on};
ghost use Rattle.gixp_response_end.specs.Others.{without_response_ends};
ghost use Rattle.gixp_response_end.specs.Whole.{whole_stream};

/// The packet lines that are passed on are those of the advertisement and of the whole responses after it.
pub fn packet_lines_are_of_whole_answers()
    ensures { (bytes : List ℕ) (frames : List Frame) (end : End) → AreFrames bytes frames end
        → AreFrames (passed_on bytes) (whole_stream frames end).list (whole_stream frames end).end }
{}

/// If a flush packet after that of the advertisement is passed on, a response-end packet directly followed it, and the
/// packet lines passed on before it are those that came before it, without response-end packets.
pub fn flush_packets_end_whole_answers()
    ensures { (frames first second after : List Frame) (end : End)
        → (whole_stream frames end).list ≡ first ++ special Flush ∷ (second ++ special Flush ∷ after)
        → (before more : List Frame) × (frames ≡ before ++ special Flush ∷ special ResponseEnd ∷ more)
        × (without_response_ends before ≡ first ++ special Flush ∷ second) }
{}
