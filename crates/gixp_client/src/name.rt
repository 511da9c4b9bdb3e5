//! The client's agent name and session id.
ghost use Rattle.std.specs.Prelude.{◌≡◌, IfOk};
ghost use Rattle.gixp_requests.specs.Feature.{feature_value, feature_values};
ghost use Rattle.gixp_client.specs.ClientNames.{is_session_id, agent_of, own_features, id_features, named_by, NamesItself};

use gixp_capabilities::Capabilities;
use gixp_requests::command::Feature;
use gixp_requests::{agent, agent_feature};
use std::alloc::{AllocError, Global};

/// The client's agent name and the session id.
#[derive(Drop)]
pub struct ClientName {
    pub(crate) agent: String,
    pub(crate) session_id: Option<String>,
}

/// The values of the features `agent` and `session-id` in fetch requests to one server.
#[derive(Drop)]
pub(crate) struct SentName {
    pub(crate) agent: String,
    pub(crate) session_id: Option<String>,
}

/// Whether a text is a valid session id: one or more printable ASCII characters without a blank (gitprotocol-capabilities,
/// "session-id").
pub(crate) fn is_session_id(text: &[u8]) -> bool
    ensures { result ≡ is_session_id text.now }
{
    !text.is_empty() && text.iter().all(|byte| byte.is_ascii_graphic())
}

impl ClientName {
    /// The feature `agent`.
    pub(crate) fn agent_feature(&self, alloc: Global) -> Result<Feature, AllocError>
        ensures { IfOk result (λ feature. feature_value feature ≡ named_by self.now) }
    {
        agent_feature(alloc, self.agent.as_str())
    }

    // The session id, if the server accepts one.
    fn sent_id(&self, capabilities: &Capabilities) -> Result<Option<String>, AllocError>
        ensures { IfOk result (λ id. own_features id ≡ id_features capabilities.now self.now.session_id) }
    {
        match &self.session_id {
            Some(id) if capabilities.contains(b"session-id") => Ok(Some(id.clone()?)),
            _ => Ok(None),
        }
    }

    /// The values to send to a server with these capabilities.
    pub(crate) fn sent(
        &self,
        alloc: Global,
        capabilities: &Capabilities,
    ) -> Result<SentName, AllocError>
        ensures { IfOk result (NamesItself self.now capabilities.now) }
    {
        Ok(SentName {
            agent: agent(alloc, self.agent.as_str())?,
            session_id: self.sent_id(capabilities)?,
        })
    }
}

/// The feature `agent` with this value.
pub(crate) fn named(agent: String) -> Feature
    ensures { feature_value result ≡ agent_of agent }
{
    ("agent", Some(agent))
}

/// The feature `session-id`, if there is a session id.
pub(crate) fn identified(
    alloc: Global,
    session_id: Option<String>,
) -> Result<Vec<Feature>, AllocError>
    ensures { IfOk result (λ features. feature_values features.items ≡ own_features session_id) }
{
    let mut features = Vec::new(alloc);
    if let Some(id) = session_id {
        features.push(("session-id", Some(id)))?;
    }
    Ok(features)
}
