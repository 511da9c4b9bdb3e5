//! The request of a first fetch.
ghost use Rattle.std.specs.Prelude.{◌≡◌, IfOk};
ghost use Rattle.gix_protocol.specs.Shallow.{shallow_value, at_remote};
ghost use Rattle.gix_protocol.specs.TagsType.TheVariants.{Included};

use gix_protocol::client::{Error, Request};
use gix_protocol::fetch::Shallow;
use std::alloc::Global;
use std::num::NonZeroU32;

/// The request for one commit of each branch, and for the tags of these commits.
pub fn branches(alloc: Global) -> Result<Request, Error>
    ensures depth { IfOk result (λ request. shallow_value request.shallow ≡ at_remote 1) }
    ensures tags { IfOk result (λ request. request.tags ≡ Included) }
{
    let mut request = Request::new(alloc);
    request.add_refspec(b"+refs/heads/*:refs/remotes/origin/*")?;
    request.shallow = Shallow::DepthAtRemote(NonZeroU32::MIN);
    Ok(request)
}
