//! The tags that a fetch request asks the server to include.
ghost use Rattle.std.specs.Prelude.{◌≡◌};
ghost use Rattle.gixp_client.specs.SentTags.{includes_tags, sent_tags};

use gixp_handshake::Handshake;
use gixp_packetline::Protocol;
use gixp_refmap::fetch::Tags;

// Whether the server can include tags.
fn includes_tags(shaken: &Handshake) -> bool
    ensures { result ≡ includes_tags shaken.now.server_protocol_version shaken.now.capabilities }
{
    match shaken.server_protocol_version {
        Protocol::V2 => true,
        Protocol::V0 | Protocol::V1 => shaken.capabilities.contains(b"include-tag"),
    }
}

/// The tags of a fetch request. git fetches without `include-tag` from a server that doesn't offer it.
pub(crate) fn sent_tags(tags: Tags, shaken: &Handshake) -> Tags
    ensures { result ≡ sent_tags shaken.now.server_protocol_version shaken.now.capabilities tags }
{
    match tags {
        Tags::Included => {
            if includes_tags(shaken) {
                Tags::Included
            } else {
                Tags::None
            }
        }
        Tags::All => Tags::All,
        Tags::None => Tags::None,
    }
}
