//! Responses to a fetch request.
ghost use Rattle.std.specs.Prelude.{◌≡◌, MatchResult, OnErr, OnOk, [], ◌∷◌, ◌++◌, ◌+◌, ◌≤◌, ◌<◌, Bool, List, length, take, drop, map, true, false};
ghost use Rattle.std.specs.List.{list_any};
ghost use Rattle.gixp_response.specs.AnswerLine.{wanted_value};
ghost use Rattle.gixp_response.specs.Answer.{no_more, update_items};
ghost use Rattle.gixp_response.specs.Beginnings.{expected};
ghost use Rattle.gixp_response.specs.RepeatedCommons.{flagged};
ghost use Rattle.gixp_response.specs.ResponseError.{is_interrupted_answer};
ghost use Rattle.gixp_response.specs.AnswerReading.{answer_of, Answered, AnswerFails};
ghost use Rattle.gixp_capabilities.specs.Capabilities.{is_text};
ghost use Rattle.gixp_response.specs.Features.{feature_name, feature_names, has_name, missing_feature, Misses};

use crate::fetch::response::beginnings::read_beginning;
use crate::fetch::response::error::{Error, RequiredFeature};
use crate::fetch::response::line::{Acknowledgement, WantedRef};
use crate::fetch::response::sections::read_sections;
use gixp_packetline::{ExtendedBufRead, Protocol};
use gixp_shallow::ShallowUpdate;
use gixp_transport::Feature;
use std::alloc::{AllocError, Global};
use std::marker::Model;

/// The response of a server to a fetch request, up to the pack (gitprotocol-v2, "fetch"; gitprotocol-pack, "Packfile Negotiation").
#[derive(Debug, Drop)]
pub struct Response {
    acknowledgements: Vec<Acknowledgement>,
    shallow_updates: Vec<ShallowUpdate>,
    wanted_refs: Vec<WantedRef>,
    has_pack: bool,
}

impl Model for Response {
    ghost use Rattle.std.specs.Prelude.{map};
    ghost use Rattle.gixp_response.specs.AnswerLine.{wanted_value};
    ghost use Rattle.gixp_response.specs.Answer.{AnswerValue};

    ghost Value = { AnswerValue };

    ghost view = { λ r. record {
      acknowledgements = r.acknowledgements.items;
      shallow_updates = r.shallow_updates.items;
      wanted_refs = map wanted_value r.wanted_refs.items;
      pack = r.has_pack;
    } };
}

impl Clone for Response {
    ghost is_clone = { λ s t. t ≡ s };

    fn clone(&self) -> Result<Response, AllocError> {
        let alloc = *self.wanted_refs.allocator();
        Ok(Response {
            acknowledgements: Vec::from_slice(alloc, &self.acknowledgements)?,
            shallow_updates: Vec::from_slice(alloc, &self.shallow_updates)?,
            wanted_refs: self.wanted_refs.clone()?,
            has_pack: self.has_pack,
        })
    }
}

impl Response {
    /// Reads the response to a request under this version. If the reader is at a flush or delimiter packet, it goes on after it.
    ///
    /// A response of version 2 is a list of sections; sections with the same header are joined. It ends with the header
    /// `packfile`, after which the pack begins, or with a section that a flush packet ends. A response of version 0 or
    /// 1 is the shortest beginning of the stream that ends
    ///
    /// - with a `NAK`, if the client wants to negotiate, unless it expects a pack and a `ready` came before;
    /// - with two flush packets;
    /// - before a line that is neither an acknowledgement nor a shallow update; this line begins the pack, and is still to come;
    /// - at the end of the stream, but not right after a flush packet.
    ///
    /// The packet lines after the response are still to come.
    ///
    /// # Errors
    ///
    /// The first error of a line or of the reader; [`Error`] says what each leaves. In version 2 these are errors too:
    /// a line that is not UTF-8, not a header or not an item of its section, and a flush or delimiter packet in place
    /// of a header.
    pub fn from_line_reader<R: ExtendedBufRead>(
        alloc: Global,
        version: Protocol,
        reader: &mut R,
        client_expects_pack: bool,
        wants_to_negotiate: bool,
    ) -> Result<Response, Error>
        ensures answers { MatchResult result
            (Answered (answer_of version (expected client_expects_pack wants_to_negotiate)) version (R.reading reader.old)
            (R.reading reader.new))
            (AnswerFails (answer_of version (expected client_expects_pack wants_to_negotiate)) R.is_plain (R.reading reader.old)
            (R.reading reader.new)) }
        ensures held { (R.reading reader.new).held ≡ (R.reading reader.old).held }
        ensures version { (R.reading reader.new).version ≡ version }
        ensures asks { R.asks reader.old (is_interrupted_answer result) reader.new }
    {
        match version {
            Protocol::V2 => read_sections(alloc, reader),
            Protocol::V1 | Protocol::V0 => read_beginning(
                alloc,
                version,
                reader,
                client_expects_pack,
                wants_to_negotiate,
            ),
        }
    }

    /// Checks that the client may use the features that it needs to read responses. Versions 0 and 1 need
    /// `multi_ack_detailed`, and one of `side-band` and `side-band-64k`.
    ///
    /// # Errors
    ///
    /// `MissingServerCapability` with the first missing feature.
    pub fn check_required_features(version: Protocol, features: &[Feature]) -> Result<(), Error>
        ensures { Misses (missing_feature version features.now) result }
    {
        match version {
            Protocol::V2 => Ok(()),
            Protocol::V1 | Protocol::V0 => {
                if !has_feature(features, "multi_ack_detailed") {
                    return Err(Error::MissingServerCapability {
                        feature: RequiredFeature::MultiAckDetailed,
                    });
                }
                if !has_feature(features, "side-band") && !has_feature(features, "side-band-64k") {
                    return Err(Error::MissingServerCapability {
                        feature: RequiredFeature::SideBand,
                    });
                }
                Ok(())
            }
        }
    }

    /// Whether a pack follows the response.
    pub fn has_pack(&self) -> bool
        ensures { result ≡ self.now.pack }
    {
        self.has_pack
    }

    /// The acknowledgements of the server, in order. Under versions 0 and 1 each common commit occurs once, at its first position.
    pub fn acknowledgements(&self) -> &[Acknowledgement]
        ensures { result.now ≡ self.now.acknowledgements }
    {
        &self.acknowledgements
    }

    /// The updates of the shallow boundary, in order.
    pub fn shallow_updates(&self) -> &[ShallowUpdate]
        ensures { result.now ≡ self.now.shallow_updates }
    {
        &self.shallow_updates
    }

    /// The objects of the refs that the request named by `want-ref`, in order. Only version 2 has these.
    pub fn wanted_refs(&self) -> &[WantedRef]
        ensures { map wanted_value result.now ≡ self.now.wanted_refs }
    {
        &self.wanted_refs
    }

    /// Appends these updates, if there are any. Under version 1 a server sends the boundary of a shallow repository with its refs.
    ///
    /// # Errors
    ///
    /// An allocation failed. The response is unchanged.
    pub fn append_v1_shallow_updates(
        &mut self,
        updates: Option<Vec<ShallowUpdate>>,
    ) -> Result<(), AllocError>
        ensures ok { OnOk result (self.new ≡ record self.old { shallow_updates = self.old.shallow_updates ++ update_items updates }) }
        ensures err { OnErr result (self.new ≡ self.old) }
    {
        match updates {
            Some(updates) => self.shallow_updates.extend_from_slice(&updates),
            None => Ok(()),
        }
    }

    // A response without items.
    pub(crate) fn empty(alloc: Global) -> Response
        ensures { result ≡ no_more false }
    {
        Response {
            acknowledgements: Vec::new(alloc),
            shallow_updates: Vec::new(alloc),
            wanted_refs: Vec::new(alloc),
            has_pack: false,
        }
    }

    pub(crate) fn push_acknowledgement(&mut self, found: Acknowledgement) -> Result<(), AllocError>
        ensures ok { OnOk result (self.new ≡ record self.old { acknowledgements = self.old.acknowledgements ++ found ∷ [] }) }
        ensures err { OnErr result (self.new ≡ self.old) }
    {
        self.acknowledgements.push(found)?;
        Ok(())
    }

    // Removes the acknowledgements whose flag is false.
    pub(crate) fn keep_flagged(&mut self, flags: &[bool])
        requires { length flags.now ≡ length self.old.acknowledgements }
        ensures { self.new ≡ record self.old { acknowledgements = flagged self.old.acknowledgements flags.now } }
    {
        keep_flagged(&mut self.acknowledgements, flags);
    }

    pub(crate) fn push_shallow_update(&mut self, found: ShallowUpdate) -> Result<(), AllocError>
        ensures ok { OnOk result (self.new ≡ record self.old { shallow_updates = self.old.shallow_updates ++ found ∷ [] }) }
        ensures err { OnErr result (self.new ≡ self.old) }
    {
        self.shallow_updates.push(found)?;
        Ok(())
    }

    pub(crate) fn push_wanted_ref(&mut self, found: WantedRef) -> Result<(), AllocError>
        ensures ok { OnOk result (self.new ≡ record self.old { wanted_refs = self.old.wanted_refs ++ wanted_value found ∷ [] }) }
        ensures err { OnErr result (self.new ≡ self.old) }
    {
        self.wanted_refs.push(found)?;
        Ok(())
    }

    // The same response, followed by a pack.
    pub(crate) fn with_pack(self) -> Response
        ensures { result ≡ record self { pack = true } }
    {
        let mut whole = self;
        whole.has_pack = true;
        whole
    }
}

// Moves the element at `at` to the end of the kept ones if its flag is true. Returns how many are kept then.
fn keep_one(found: &mut Vec<Acknowledgement>, kept: usize, at: usize, flag: bool) -> usize
    requires within { (kept ≤ at) × (at < length found.old.items) }
    ensures within { result ≤ at + 1 }
    ensures len { length found.new.items ≡ length found.old.items }
    ensures kept { (flags : List Bool) → take result found.new.items ++ flagged (drop (at + 1) found.new.items) flags
        ≡ take kept found.old.items ++ flagged (drop at found.old.items) (flag ∷ flags) }
{
    if !flag {
        return kept;
    }
    found[kept] = found[at];
    kept + 1
}

// Removes the elements whose flag is false, without an allocation.
fn keep_flagged(found: &mut Vec<Acknowledgement>, flags: &[bool])
    requires { length flags.now ≡ length found.old.items }
    ensures { found.new.items ≡ flagged found.old.items flags.now }
{
    let mut kept = 0;
    'flags: for (at, flag) in flags.iter().enumerate() {
        kept = keep_one(found, kept, at, *flag);
    }
    found.truncate(kept);
}

fn has_feature(features: &[Feature], name: &str) -> bool
    ensures { result ≡ has_name name.now (feature_names features.now) }
{
    any_named(features, name)
}

fn any_named(features: &[Feature], name: &str) -> bool
    ensures { result ≡ list_any (λ f. is_text (feature_name f) name.now) features.now }
{
    features.iter().any(|feature| is_named(feature, name))
}

fn is_named(feature: &Feature, name: &str) -> bool
    ensures { result ≡ is_text (feature_name feature.now) name.now }
{
    feature.0 == name
}
