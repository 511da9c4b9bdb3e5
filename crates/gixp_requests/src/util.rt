//! The agent string of a client.
ghost use Rattle.std.specs.Prelude.{◌≡◌, IfOk};
ghost use Rattle.std.specs.String.{string_bytes};
ghost use Rattle.gixp_requests.specs.Command.{agent_feature, agent_of};
ghost use Rattle.gixp_requests.specs.Feature.{feature_value};

use gixp_transport::Feature;
use std::alloc::{AllocError, Global};

/// The agent string of a client, as servers know it: its name, with `git/` before it unless the name begins with that
/// (gitprotocol-capabilities, "agent").
///
/// # Errors
///
/// Only an allocation failure.
pub fn agent(alloc: Global, name: &str) -> Result<String, AllocError>
    ensures { IfOk result (λ text. string_bytes text ≡ agent_of name.now) }
{
    if name.as_bytes().starts_with(b"git/") {
        return String::from_str(alloc, name);
    }
    format!(in alloc; "git/{name}")
}

/// The feature `agent` of a client with this name (gitprotocol-v2, "Capabilities", `agent`).
///
/// # Errors
///
/// Only an allocation failure.
pub fn agent_feature(alloc: Global, name: &str) -> Result<Feature, AllocError>
    ensures { IfOk result (λ feature. feature_value feature ≡ agent_feature name.now) }
{
    Ok(("agent", Some(agent(alloc, name)?)))
}
