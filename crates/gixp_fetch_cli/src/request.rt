//! The request of a fetch.
ghost use Rattle.std.specs.Prelude.{◌≡◌, true, IfOk};
ghost use Rattle.gix_protocol.specs.FetchShallow.{shallow_value};
ghost use Rattle.gixp_fetch_cli.specs.Refspecs.{AreSpecsOf, HasOtherDefaults};

use crate::options::FetchArgs;
use gix_protocol::client::Request;
use gixp_fetch_common::failure::{Failure, Phase};
use gixp_fetch_common::session::failure_of;
use std::alloc::Global;

/// The request of a fetch, without its filter. The fetch goes on after an error on band 3, which is reported at its end.
pub fn request_of(
    alloc: Global,
    fetch_args: &FetchArgs<'_>,
    wants_progress: bool,
) -> Result<Request, Failure>
    ensures specs { IfOk result (λ request. AreSpecsOf fetch_args.now.specs.items request.refspecs.items) }
    ensures tags { IfOk result (λ request. request.tags ≡ fetch_args.now.tags) }
    ensures shallow { IfOk result (λ request. shallow_value request.shallow ≡ shallow_value fetch_args.now.shallow) }
    ensures rejects { IfOk result (λ request. request.rejects_shallow ≡ fetch_args.now.rejects_shallow) }
    ensures goes_on { IfOk result (λ request. request.goes_on ≡ true) }
    ensures progress { IfOk result (λ request. request.wants_progress ≡ wants_progress) }
    ensures trusts { IfOk result (λ request. request.trusts_objects ≡ true) }
    ensures defaults { IfOk result (λ request. HasOtherDefaults request) }
{
    let mut request = Request::new(alloc);
    'specs: for text in &fetch_args.specs {
        request
            .add_refspec(text.as_bytes())
            .map_err(|e| failure_of(alloc, Phase::Refspec, &e))?;
    }
    request.tags = fetch_args.tags;
    request.shallow = fetch_args.shallow.clone()?;
    request.rejects_shallow = fetch_args.rejects_shallow;
    request.goes_on = true;
    // The files list what the refs reach.
    request.trusts_objects = true;
    request.wants_progress = wants_progress;
    Ok(request)
}
