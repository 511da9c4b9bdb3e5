//! Theorems about the definitions. Each is a function without a body; its contract is the theorem.
ghost use Rattle.std.specs.Prelude.{◌≡◌};
ghost use Rattle.gixp_packetline.specs.Pieces.{Pieces};
ghost use Rattle.gixp_packetline.specs.Items.{plain, banded, items_of, first_lines};
ghost use Rattle.gixp_packetline.specs.Lines.{lines_of};
ghost use Rattle.gixp_packetline.specs.declared.protocol.Protocol.{Protocol};
ghost use Rattle.gixp_sidebands.specs.Bands.{unband, content_of, messages_of, joined, received_messages, first_texts, without_texts};

/// The lines of the content are the line items before the first stop among the stream's banded items. A stop is a flush
/// packet, or under version 2 a delimiter packet.
pub fn content_lines_are_of_items()
    ensures { (version : Protocol) (ps : Pieces) → (lines_of version (unband ps)).lines ≡ (first_lines (items_of version banded ps)).lines }
{}

/// The items of the content are the stream's banded items without texts. So the lines, each stop and the end are the
/// same, and what follows the lines of the content follows those of the stream.
pub fn content_items_are_of_items()
    ensures { (version : Protocol) (ps : Pieces) → items_of version plain (unband ps) ≡ without_texts (items_of version banded ps) }
{}

/// The bytes of the content are these lines, joined.
pub fn content_is_of_items()
    ensures { (version : Protocol) (ps : Pieces) → content_of ps ≡ joined (first_lines (items_of version banded ps)).lines }
{}

/// The reported messages of bands 2 and 3 are the texts before the first stop among the stream's banded items.
pub fn messages_are_of_items()
    ensures { (version : Protocol) (ps : Pieces) → received_messages (messages_of ps) ≡ first_texts (items_of version banded ps).list }
{}
