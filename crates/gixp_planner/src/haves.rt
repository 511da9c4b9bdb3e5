//! The haves that a plan offers.
ghost use Rattle.gixp_planner.specs.Haves.{ReadsHaves};

use crate::error::PlanError;
use gix_protocol::transport::ObjectId;
use gixp_utils::text_lines;
use std::alloc::Global;

/// The ids of a text, one on each line, in their order, repeats included. The last line may lack its LF.
///
/// # Errors
///
/// `have Decode` where a line is no id of 40 hexadecimal digits (gitprotocol-common, "ABNF Notation", `obj-id`), and
/// `have Memory` where an allocation failed.
pub fn parse_haves(alloc: Global, text: &[u8]) -> Result<Vec<ObjectId>, PlanError>
    ensures { ReadsHaves text.now result }
{
    let Ok(lines) = text_lines(alloc, text) else {
        return Err(PlanError::memory("have"));
    };
    let mut ids = Vec::new(alloc);
    for line in &lines {
        let Ok(id) = ObjectId::from_hex(line.as_bytes()) else {
            return Err(PlanError::new("have", "Decode"));
        };
        let Ok(()) = ids.push(id) else {
            return Err(PlanError::memory("have"));
        };
    }
    Ok(ids)
}
