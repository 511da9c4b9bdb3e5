//! A theorem about what a reader passes on, as a function without a body; its contract is the theorem.
ghost use Rattle.std.specs.Prelude.{◌≡◌, ℕ, List};
ghost use Rattle.gixp_packetline.specs.Frames.{Frame, End};
ghost use Rattle.gixp_packetline.specs.Grammar.{AreFrames};
ghost use Rattle.gixp_packfile_uris.specs.Parts.{parts_of};
ghost use Rattle.gixp_packfile_uris.specs.Uris.{without_uris, uri_lines, is_refused};
ghost use Rattle.gixp_packfile_uris.specs.declared.place.LinePlace.TheVariants.{SectionStart};

/// The packet lines that are passed on are those of the stream without the section `packfile-uris` of each response.
/// The sink takes the lines of the section. Reads fail at the end exactly if the section has an invalid line, a flush
/// packet or a response-end packet.
pub fn packet_lines_are_without_the_section()
    ensures { (bytes : List ℕ) (frames : List Frame) (end : End) → AreFrames bytes frames end
        → AreFrames (parts_of bytes).passed (without_uris SectionStart frames end).list (without_uris SectionStart frames end).end
        × ((parts_of bytes).lines ≡ uri_lines SectionStart frames) × ((parts_of bytes).is_refused ≡ is_refused SectionStart frames) }
{}
