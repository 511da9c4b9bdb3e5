//! Refspecs that name objects by their ids.
ghost use Rattle.std.specs.Prelude.{◌≡◌};
ghost use Rattle.gixp_refmap.specs.Values.{context_value};
ghost use Rattle.gixp_engine.specs.IdSpecs.{are_ids, needs_no_list};

use gixp_handshake::Handshake;
use gixp_refmap::refmap::init::Context;
use gixp_refspec::by_id::name_ids;

fn are_ids(context: &Context) -> bool
    ensures { result ≡ are_ids (context_value context.now) }
{
    name_ids(&context.fetch_refspecs, &context.extra_refspecs)
}

/// Whether the server needn't list its refs: the handshake has none, as under version 2, and no refspec names one.
pub(crate) fn needs_no_list(context: &Context, handshake: &Handshake) -> bool
    ensures { result ≡ needs_no_list context.now handshake.now }
{
    handshake.refs.is_none() && are_ids(context)
}
