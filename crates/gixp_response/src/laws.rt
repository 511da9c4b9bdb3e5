//! Theorems about the definitions. Each is a function without a body; its contract is the theorem.
ghost use Rattle.std.specs.Prelude.{◌≡◌, List};
ghost use Rattle.gixp_packetline.specs.Pieces.{Refusal, Piece, Pieces};
ghost use Rattle.gixp_response.specs.ResponseError.{AnswerRefusal};
ghost use Rattle.gixp_response.specs.Answer.{AnswerValue, whole, refused};
ghost use Rattle.gixp_response.specs.Sections.{v2_answer};
ghost use Rattle.gixp_packetline.specs.declared.protocol.Protocol.{Protocol};
ghost use Rattle.gixp_response.specs.Beginnings.{Expected, v1_answer};
ghost use Rattle.gixp_response.specs.BeginningGrammar.{IsShortest, BeginningIsRefused};
ghost use Rattle.gixp_response.specs.SectionGrammar.{SectionText, Last, AreSections, answer_by, AreRefused};

/// A response of version 2 that is read is a list of sections, and has the items of these sections.
pub fn answers_are_sections()
    ensures { (p : Pieces) (value : AnswerValue) (rest : Pieces) → v2_answer p ≡ whole value rest
        → (ss : List SectionText) × (last : Last) × AreSections p.list ss last rest.list × (rest.end ≡ p.end) × (value ≡ answer_by ss last) }
{}

/// Each list of sections is read as a response with its items, however it is read.
pub fn sections_are_answers()
    ensures { (ps : List Piece) (end : Refusal) (ss : List SectionText) (last : Last) (rest : List Piece) → AreSections ps ss last rest
        → v2_answer (record { list = ps; end = end }) ≡ whole (answer_by ss last) (record { list = rest; end = end }) }
{}

/// A response of version 0 or 1 that is read is a beginning of the stream that ends a response, and no shorter beginning does.
pub fn answers_are_shortest()
    ensures { (version : Protocol) (a : Expected) (p : Pieces) (value : AnswerValue) (rest : Pieces)
        → v1_answer version a p ≡ whole value rest → IsShortest version a p value rest }
{}

/// The shortest beginning of a stream that ends a response of version 0 or 1 is read as that response, however it is read.
pub fn shortest_are_answers()
    ensures { (version : Protocol) (a : Expected) (p : Pieces) (value : AnswerValue) (rest : Pieces) → IsShortest version a p value rest
        → v1_answer version a p ≡ whole value rest }
{}

/// If reading a response of version 2 fails, the stream is some sections, and then an error in place of a header or an item, or the end.
pub fn refused_sections_are_cut()
    ensures { (p : Pieces) (e : AnswerRefusal) → v2_answer p ≡ refused e → (ss : List SectionText) × AreRefused p.list p.end ss e }
{}

/// Sections followed by such an error fail with it, however they are read.
pub fn cut_sections_are_refused()
    ensures { (ps : List Piece) (end : Refusal) (ss : List SectionText) (e : AnswerRefusal) → AreRefused ps end ss e
        → v2_answer (record { list = ps; end = end }) ≡ refused e }
{}

/// If reading a response of version 0 or 1 fails, no beginning of the stream ends a response, and the error is that of
/// the reader after the last packet line.
pub fn refused_answers_have_no_end()
    ensures { (version : Protocol) (a : Expected) (p : Pieces) (e : AnswerRefusal) → v1_answer version a p ≡ refused e
        → BeginningIsRefused version a p e }
{}

/// If no beginning of a stream ends a response of version 0 or 1, reading fails with that error, however it is read.
pub fn answers_without_end_are_refused()
    ensures { (version : Protocol) (a : Expected) (p : Pieces) (e : AnswerRefusal) → BeginningIsRefused version a p e
        → v1_answer version a p ≡ refused e }
{}
