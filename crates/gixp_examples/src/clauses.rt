//! Contracts of a caller that use the definitions of `gix_protocol`.
ghost use Rattle.std.specs.Prelude.{◌≡◌, Some, Ok, Err, true, false, IfOk, OnOk, IsSome, MatchResult};
ghost use Rattle.std.specs.FinMap as finite;
ghost use Rattle.gix_protocol.specs.ObjectIdType.{ObjectId};
ghost use Rattle.bstr.specs.BStr.{bstr_bytes};
ghost use Rattle.gix_protocol.specs.Bands.{ReadsContent};
ghost use Rattle.gix_protocol.specs.Beginnings.{expected};
ghost use Rattle.gix_protocol.specs.Complete.{IsComplete};
ghost use Rattle.gix_protocol.specs.Object.{commit_at};
ghost use Rattle.gix_protocol.specs.AnswerReading.{answer_of, Answered};
ghost use Rattle.gix_protocol.specs.RefSpec.{value_of};
ghost use Rattle.gix_protocol.specs.Sidebands.{side};
ghost use Rattle.gix_protocol.specs.Spec.{spec_of};

use bstr::BStr;
use gix_protocol::fetch::negotiate::{Graph, ObjectError, Objects};
use gix_protocol::fetch::{Response, response};
use gix_protocol::refspec::RefSpecRef;
use gix_protocol::refspec::parse::{self, Operation};
use gix_protocol::transport::{
    BandText, ExtendedBufRead, Interrupt, ObjectId, Protocol, WithSidebands,
};
use std::alloc::Global;
use std::io::{self, Read};

/// Marks everything complete that is reachable from these tips, down to the cutoff. The graph then holds all of it.
pub fn marked_complete<O: Objects>(
    graph: &mut Graph<O>,
    tips: &[ObjectId],
    cutoff: i64,
) -> Result<(), ObjectError>
    ensures { OnOk result ((id : ObjectId) → IsComplete (commit_at graph.old.graph.objects) tips.now (Some cutoff) id
        → IsSome (finite.get graph.new.graph.held id)) }
{
    graph.mark_complete(tips, Some(cutoff))
}

/// Parses a refspec for fetching. The clause states its meaning.
pub fn read_spec<'a>(text: BStr<'a>) -> Result<RefSpecRef<'a>, parse::Error>
    ensures { MatchResult result (λ s. spec_of (bstr_bytes text.entry) ≡ Ok (value_of s)) (λ e. spec_of (bstr_bytes text.entry) ≡ Err e) }
{
    parse::parse(text, Operation::Fetch)
}

/// Reads the response to a request that ends with `done`. The clause states its meaning.
pub fn read_answer<R: ExtendedBufRead>(
    alloc: Global,
    version: Protocol,
    reader: &mut R,
) -> Result<Response, response::Error>
    ensures { IfOk result (Answered (answer_of version (expected true false)) version (R.reading reader.old) (R.reading reader.new)) }
{
    Response::from_line_reader(alloc, version, reader, true, false)
}

/// Reads the next bytes of band 1 into a buffer.
pub fn read_pack<T: ExtendedBufRead, P: BandText + Drop, I: Interrupt>(
    pack: &mut WithSidebands<'_, T, P, I>,
    buffer: &mut [u8],
) -> io::Result<usize>
    ensures { ReadsContent (side T.reading pack.old) (side T.reading pack.new) result buffer.new }
{
    pack.read(buffer)
}
