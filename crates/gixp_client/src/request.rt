//! The request of a client.
ghost use Rattle.std.specs.Prelude.{◌≡◌, IfOk, IfErr, OnOk, OnErr, map};
ghost use Rattle.gixp_refspec.specs.RefSpec.{owned_value_of};
ghost use Rattle.gixp_refmap.specs.Tags.{tags_asked};
ghost use Rattle.gixp_refmap.specs.Values.{context_value};
ghost use Rattle.gixp_requests.specs.Command.{table_of};
ghost use Rattle.gixp_client.specs.ClientCalls.{some_spec};
ghost use Rattle.gixp_client.specs.Tables.{asked_table};

use crate::error::Error;
use crate::tables::{UriProtocols, table_by};
use bstr::{BStr, BString};
use gixp_negotiators::Algorithm;
use gixp_refmap::fetch::Tags;
use gixp_refmap::refmap::init;
use gixp_refspec::RefSpec;
use gixp_refspec::parse::{Operation, parse};
use gixp_refspec::spelling::spelled;
use gixp_requests::command::CommandTable;
use gixp_shallow::Shallow;
use std::alloc::{AllocError, Global};

/// What to map, and how to fetch it.
#[derive(Debug, Drop)]
pub struct Request {
    alloc: Global,
    /// The refspecs. Without any, only tags are mapped.
    pub refspecs: Vec<RefSpec>,
    /// Which tags to fetch. The default is the tags that point into the fetched history. A server of version 0 or 1 without
    /// `include-tag` isn't asked for these. It may send them without being asked.
    pub tags: Tags,
    /// How much of the history to fetch. The default is everything that is missing.
    pub shallow: Shallow,
    /// The algorithm that chooses the haves. The default is `Consecutive`.
    pub algorithm: Algorithm,
    /// Whether to reject a server whose repository is shallow. The default is false.
    pub rejects_shallow: bool,
    /// Whether the transport may be two pipes. Requests of versions 0 and 1 then have few haves, so that client and server never
    /// block each other in a write. The default is true.
    pub is_over_pipes: bool,
    /// Which objects to leave out (git-rev-list, "--filter"). The default is none.
    pub filter: Option<String>,
    /// Whether a fetch continues after the server reports an error on band 3. The default is false.
    pub goes_on: bool,
    /// Whether the server should send progress. If not, the request asks for `no-progress` where the server offers it. The default
    /// is true.
    pub wants_progress: bool,
    /// Whether the server may send a thin pack, whose deltas may have a base that the pack lacks (gitprotocol-capabilities,
    /// "thin-pack"). Turn it off if nothing adds such bases, as `git index-pack --fix-thin` does. The default is true.
    pub wants_thin_pack: bool,
    /// Whether every object that exists in the repository counts as complete, with everything that it reaches. If not, the fetch
    /// checks the offered objects, as [`Repository::objects`](crate::Repository::objects) says. Turn it on if the repository shows
    /// only what its refs reach. The default is false.
    pub trusts_objects: bool,
    /// The protocols of the URIs that the server may send in place of objects in its pack (gitprotocol-v2, "packfile-uris"). The
    /// transport has to remove the section `packfile-uris` from the response, since a fetch rejects it. The default is none.
    pub uri_protocols: UriProtocols,
}

impl Request {
    ghost use Rattle.gixp_client.specs.ClientCalls.{asked_specs};
    ghost use Rattle.gixp_client.specs.Requests.{IsDefaultRequest, AddsSpec, IsSpecRefusal, SetsFilter};

    /// A request without refspecs, with the defaults of `git fetch`.
    pub fn new(alloc: Global) -> Request
        ensures { IsDefaultRequest result }
    {
        Request {
            alloc,
            refspecs: Vec::new(alloc),
            tags: Tags::Included,
            shallow: Shallow::NoChange,
            algorithm: Algorithm::Consecutive,
            rejects_shallow: false,
            is_over_pipes: true,
            filter: None,
            goes_on: false,
            wants_progress: true,
            wants_thin_pack: true,
            trusts_objects: false,
            uri_protocols: UriProtocols::Neither,
        }
    }

    /// Adds a refspec, for example `+refs/heads/*:refs/remotes/origin/*` (git-fetch, "<refspec>"). A source that is `@` alone
    /// means `HEAD` (gitrevisions, "@").
    ///
    /// # Errors
    ///
    /// `Refspec` if the text isn't a valid refspec, or `Memory`. Then the request is unchanged.
    pub fn add_refspec(&mut self, text: &[u8]) -> Result<(), Error>
        ensures added { OnOk result (AddsSpec text.now self.old self.new) }
        ensures refused { IfErr result (IsSpecRefusal text.now) }
        ensures stays { OnErr result (self.new.refspecs.items ≡ self.old.refspecs.items) }
        ensures others { self.new ≡ record self.old { refspecs = self.new.refspecs } }
    {
        let spelled = spelled(self.alloc, text)?;
        match parse(BStr::new(&spelled), Operation::Fetch) {
            Ok(spec) => {
                let spec = spec.to_owned(self.alloc)?;
                self.refspecs.push(spec)?;
                Ok(())
            }
            Err(why) => Err(Error::Refspec {
                spec: BString::from_slice(self.alloc, text)?,
                why,
            }),
        }
    }

    /// Leaves out the objects that the filter excludes (git-rev-list, "--filter").
    ///
    /// # Errors
    ///
    /// Only `Memory`. Then the request is unchanged.
    pub fn set_filter(&mut self, filter: &str) -> Result<(), Error>
        ensures set { OnOk result (SetsFilter filter.now self.old self.new) }
        ensures refused { IfErr result (λ e. (e ≡ Error.Memory) × (self.new ≡ self.old)) }
    {
        self.filter = Some(String::from_str(self.alloc, filter)?);
        Ok(())
    }

    // The commands and features that a session with this request uses.
    pub(crate) fn table(&self) -> CommandTable
        ensures { table_of result ≡ asked_table self.now.wants_progress self.now.wants_thin_pack self.now.uri_protocols }
    {
        table_by(
            self.wants_progress,
            self.wants_thin_pack,
            self.uri_protocols,
        )
    }

    // The refspecs of the request and the refspec of its tags.
    pub(crate) fn context(&self) -> Result<init::Context, AllocError>
        ensures { IfOk result (λ c. context_value c ≡ asked_specs self.now) }
    {
        let fetch_refspecs = copied_specs(&self.refspecs)?;
        let extra_refspecs = tag_specs(self.alloc, self.tags)?;
        Ok(init::Context {
            fetch_refspecs,
            extra_refspecs,
        })
    }
}

fn copied_specs(specs: &Vec<RefSpec>) -> Result<Vec<RefSpec>, AllocError>
    ensures { IfOk result (λ copy. map owned_value_of copy.items ≡ map owned_value_of specs.now.items) }
{
    let copy = specs.clone()?;
    Ok(copy)
}

// The refspec of the tags, if these tags need one.
fn tag_specs(alloc: Global, tags: Tags) -> Result<Vec<RefSpec>, AllocError>
    ensures { IfOk result (λ specs. map owned_value_of specs.items ≡ some_spec (tags_asked tags)) }
{
    let mut specs = Vec::new(alloc);
    match tags.to_refspec() {
        Some(spec) => {
            let spec = spec.to_owned(alloc)?;
            specs.push(spec)?;
            Ok(specs)
        }
        None => Ok(specs),
    }
}
