//! The result of a fetch.
ghost use Rattle.std.specs.Prelude.{◌≡◌, [], true, false};
ghost use Rattle.gixp_remote_session.specs.Packs.{has_objects};

use crate::pack::plan::PackPlan;
use crate::pack::state::PackState;
use bstr::BString;
use gix_protocol::transport::ObjectId;

/// The result of a fetch.
#[derive(Drop)]
pub(crate) struct FetchResult {
    /// The state of the pack.
    pub(crate) pack: PackState,
    /// The boundary as the server has it.
    pub(crate) boundary: Vec<ObjectId>,
    /// The packs that the server named by URIs.
    pub(crate) packs: Vec<ObjectId>,
}

impl FetchResult {
    /// The variables that let git see the received objects, if there are any.
    pub(crate) fn variables<'x>(&self, plan: &'x PackPlan) -> &'x [BString]
        ensures received { has_objects self.now.pack ≡ true → result.now ≡ plan.now.variables.items }
        ensures none { has_objects self.now.pack ≡ false → result.now ≡ [] }
    {
        if self.pack.has_objects() {
            &plan.variables
        } else {
            &[]
        }
    }
}
