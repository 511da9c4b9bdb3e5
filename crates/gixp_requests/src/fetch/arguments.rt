//! The arguments of a fetch request.
ghost use Rattle.std.specs.Prelude.{◌≡◌, ◌↔◌, ◌<◌, ◌++◌, ◌||◌, true, false, length, codes, IsTrue, IfOk, OnOk, OnErr};
ghost use Rattle.bstr.specs.BStr.{bstr_bytes};
ghost use Rattle.bstr.specs.Owned.{bstring_bytes};
ghost use Rattle.gixp_requests.specs.Feature.{feature_values};
ghost use Rattle.gixp_requests.specs.Command.{table_of, texts};

use crate::command::table::has_feature;
use crate::command::{Command, CommandTable, Feature};
use bstr::{BStr, BString};
use gixp_capabilities::client::Error;
use gixp_hash::ObjectId;
use gixp_packetline::Protocol;
use gixp_transport::Transport;
use std::alloc::{AllocError, Global};
use std::marker::Model;

mod line;
mod messages;
mod part;
mod text;

use line::{Line, has_want, push_have, push_line, text_lines};
use messages::{send_command, send_upload, sent_features};
use text::{features_text, joined, push_text, want_line};

/// The arguments of the next fetch request: argument lines, and the commits that the client has (gitprotocol-v2,
/// "fetch"; gitprotocol-pack, "Packfile Negotiation").
///
/// A call that adds a line and fails changes nothing. It fails only if an allocation does.
#[derive(Debug, Drop)]
pub struct Arguments {
    alloc: Global,
    version: Protocol,
    features: Vec<Feature>,
    include_tag: bool,
    deepen_relative: bool,
    added: Vec<BString>,
    wanted: bool,
    lines: Vec<Line>,
    haves: Vec<ObjectId>,
}

impl Model for Arguments {
    ghost use Rattle.gixp_requests.specs.Arguments.{ArgumentsValue};

    ghost Value = { ArgumentsValue };

    ghost use Rattle.gixp_requests.specs.Feature.{feature_values};
    ghost use Rattle.gixp_requests.specs.Command.{texts};
    ghost use Rattle.gixp_requests.specs.Line.{line_texts, have_texts};

    ghost view = { λ a. record {
      version = a.version;
      features = feature_values a.features.items;
      include_tag = a.include_tag;
      deepen_relative = a.deepen_relative;
      added = texts a.added;
      wanted = a.wanted;
      lines = line_texts a.lines;
      haves = have_texts a.haves;
    } };
}

impl Arguments {
    ghost use Rattle.gixp_requests.specs.Arguments.{Becomes, is_v2, id_text, asks_nothing, with_line, asks_want, asks_want_ref, asks_have, asks_shallow, asks_deepen, asks_deepen_since, asks_deepen_not, asks_filter, asks_deepen_relative, asks_include_tag, asks_feature, can_use, can_use_deepening, can_use_include_tag, may_add_feature, is_empty, want_line};
    ghost use Rattle.gixp_requests.specs.Request.{SendsValues, request, request_fits, request_values, sent_off};
    ghost use Rattle.gixp_requests.specs.Line.{line_text};
    ghost use Rattle.gixp_packetline.specs.FrameText.{texts_of};
    ghost use Rattle.gixp_transport.specs.Transport.{Sends};

    /// A new request. Under version 2 it has the lines of the table that are sent with these features.
    ///
    /// The features are those that the server offers and the caller wants to use.
    ///
    /// # Errors
    ///
    /// Only an allocation failure.
    pub fn new(
        alloc: Global,
        table: &CommandTable,
        version: Protocol,
        features: Vec<Feature>,
    ) -> Result<Arguments, AllocError>
        ensures { IfOk result (λ asked. asked ≡ asks_nothing (table_of table.now) version (feature_values features.entry.items)) }
    {
        let lines = if version == Protocol::V2 {
            text_lines(
                alloc,
                table.initial_v2_arguments(alloc, Command::Fetch, &features)?,
            )?
        } else {
            Vec::new(alloc)
        };
        Ok(Arguments {
            alloc,
            version,
            features,
            include_tag: false,
            deepen_relative: false,
            added: Vec::new(alloc),
            wanted: false,
            lines,
            haves: Vec::new(alloc),
        })
    }

    fn push_line(&mut self, line: BString) -> Result<(), AllocError>
        ensures { Becomes result self.old (with_line (bstring_bytes line) self.old) self.new }
    {
        push_line(&mut self.lines, Line::Text(line))
    }

    fn push_joined(&mut self, front: &[u8], back: &[u8]) -> Result<(), AllocError>
        ensures { Becomes result self.old (with_line (front.now ++ back.now) self.old) self.new }
    {
        let line = joined(self.alloc, front, back)?;
        self.push_line(line)
    }

    fn want_line(&self, id: &ObjectId) -> Result<Line, AllocError>
        ensures { IfOk result (λ line. line_text line ≡ want_line (id_text id.now) self.now) }
    {
        if self.version == Protocol::V2 || self.wanted {
            return Ok(Line::Want(*id));
        }
        let following = features_text(
            self.alloc,
            &self.features,
            self.include_tag,
            self.deepen_relative,
            &self.added,
        )?;
        Ok(Line::Text(want_line(self.alloc, id, &following)?))
    }

    /// Requests an object, by the line `want <id>`.
    ///
    /// Under versions 0 and 1 the first such line also has the features, each after a blank: those passed to `new`, but
    /// `include-tag` and `deepen-relative` only if they were turned on, and then those that were added.
    ///
    /// # Errors
    ///
    /// Only an allocation failure.
    pub fn want(&mut self, id: &ObjectId) -> Result<(), AllocError>
        ensures { Becomes result self.old (asks_want (id_text id.now) self.old) self.new }
    {
        let line = self.want_line(id)?;
        push_line(&mut self.lines, line)?;
        self.wanted = true;
        Ok(())
    }

    /// Requests the object of a ref, by the line `want-ref <path>`.
    ///
    /// # Errors
    ///
    /// Only an allocation failure.
    pub fn want_ref(&mut self, path: BStr<'_>) -> Result<(), AllocError>
        ensures { Becomes result self.old (asks_want_ref (bstr_bytes path.entry) self.old) self.new }
    {
        self.push_joined(b"want-ref ", path.as_bytes())
    }

    /// Names an object that the client has, by a line `have <id>` in the next request only.
    ///
    /// # Errors
    ///
    /// Only an allocation failure.
    pub fn have(&mut self, id: &ObjectId) -> Result<(), AllocError>
        ensures { Becomes result self.old (asks_have (id_text id.now) self.old) self.new }
    {
        push_have(&mut self.haves, *id)
    }

    /// Names a shallow commit of the client, by the line `shallow <id>`.
    ///
    /// # Errors
    ///
    /// Only an allocation failure.
    pub fn shallow(&mut self, id: &ObjectId) -> Result<(), AllocError>
        requires { can_use (codes "shallow") self.old ≡ true }
        ensures { Becomes result self.old (asks_shallow (id_text id.now) self.old) self.new }
    {
        self.push_joined(b"shallow ", &id.to_hex())
    }

    /// Requests this many commits from each ref, by the line `deepen <depth>`.
    ///
    /// # Errors
    ///
    /// Only an allocation failure.
    pub fn deepen(&mut self, depth: usize) -> Result<(), AllocError>
        requires { can_use (codes "shallow") self.old ≡ true }
        ensures { Becomes result self.old (asks_deepen depth self.old) self.new }
    {
        let depth = depth.to_string(self.alloc)?;
        self.push_joined(b"deepen ", depth.as_bytes())
    }

    /// Requests commits no older than this time, in seconds since 1970-01-01 00:00:00 UTC, by the line `deepen-since <seconds>`.
    ///
    /// # Errors
    ///
    /// Only an allocation failure.
    pub fn deepen_since(&mut self, seconds: i64) -> Result<(), AllocError>
        requires { can_use_deepening (codes "deepen-since") self.old ≡ true }
        ensures { Becomes result self.old (asks_deepen_since seconds self.old) self.new }
    {
        let seconds = seconds.to_string(self.alloc)?;
        self.push_joined(b"deepen-since ", seconds.as_bytes())
    }

    /// Excludes the commits that are reachable from a ref, by the line `deepen-not <ref>`.
    ///
    /// # Errors
    ///
    /// Only an allocation failure.
    pub fn deepen_not(&mut self, ref_path: BStr<'_>) -> Result<(), AllocError>
        requires { can_use_deepening (codes "deepen-not") self.old ≡ true }
        ensures { Becomes result self.old (asks_deepen_not (bstr_bytes ref_path.entry) self.old) self.new }
    {
        self.push_joined(b"deepen-not ", ref_path.as_bytes())
    }

    /// Makes the depth count from the client's shallow boundary.
    ///
    /// Under version 2 this is the line `deepen-relative`, once for each call. Under versions 0 and 1 it is a feature
    /// of the first want, and has no effect after that want.
    ///
    /// # Errors
    ///
    /// Only an allocation failure.
    pub fn deepen_relative(&mut self) -> Result<(), AllocError>
        requires { can_use_deepening (codes "deepen-relative") self.old ≡ true }
        ensures { Becomes result self.old (asks_deepen_relative self.old) self.new }
    {
        if self.version == Protocol::V2 {
            return self.push_joined(b"deepen-relative", b"");
        }
        self.deepen_relative = true;
        Ok(())
    }

    /// Excludes objects by a filter, by the line `filter <spec>`.
    ///
    /// # Errors
    ///
    /// Only an allocation failure.
    pub fn filter(&mut self, spec: &str) -> Result<(), AllocError>
        requires { can_use (codes "filter") self.old ≡ true }
        ensures { Becomes result self.old (asks_filter spec.now self.old) self.new }
    {
        self.push_joined(b"filter ", spec.as_bytes())
    }

    /// Lets the server send annotated tags that point to the objects it sends.
    ///
    /// Under version 2 this is the line `include-tag`, once for each call. Under versions 0 and 1 it is a feature of
    /// the first want, and has no effect after that want.
    ///
    /// # Errors
    ///
    /// Only an allocation failure.
    pub fn use_include_tag(&mut self) -> Result<(), AllocError>
        requires { can_use_include_tag self.old ≡ true }
        ensures { Becomes result self.old (asks_include_tag self.old) self.new }
    {
        if self.version == Protocol::V2 {
            return self.push_joined(b"include-tag", b"");
        }
        self.include_tag = true;
        Ok(())
    }

    /// Adds a feature unchanged: under version 2 as an argument line, otherwise as one more feature of the first want.
    ///
    /// # Errors
    ///
    /// Only an allocation failure.
    pub fn add_feature(&mut self, feature: &str) -> Result<(), AllocError>
        requires { may_add_feature self.old ≡ true }
        ensures { Becomes result self.old (asks_feature feature.now self.old) self.new }
    {
        let text = BString::from_slice(self.alloc, feature)?;
        if self.version == Protocol::V2 {
            self.push_line(text)
        } else {
            push_text(&mut self.added, text)
        }
    }

    /// Whether a filter may be requested.
    pub fn can_use_filter(&self) -> bool
        ensures { result ≡ can_use (codes "filter") self.now }
    {
        has_feature(&self.features, "filter")
    }

    /// Whether the client's shallow commits may be named.
    pub fn can_use_shallow(&self) -> bool
        ensures { result ≡ can_use (codes "shallow") self.now }
    {
        has_feature(&self.features, "shallow")
    }

    /// Whether a depth may be requested.
    pub fn can_use_deepen(&self) -> bool
        ensures { result ≡ can_use (codes "shallow") self.now }
    {
        self.can_use_shallow()
    }

    // Under version 2 the feature `shallow` decides, otherwise the feature of this name.
    fn can_deepen(&self, name: &str) -> bool
        ensures { result ≡ can_use_deepening name.now self.now }
    {
        if self.version == Protocol::V2 {
            return self.can_use_shallow();
        }
        has_feature(&self.features, name)
    }

    /// Whether a time limit for commits may be requested.
    pub fn can_use_deepen_since(&self) -> bool
        ensures { result ≡ can_use_deepening (codes "deepen-since") self.now }
    {
        self.can_deepen("deepen-since")
    }

    /// Whether the commits that are reachable from a ref may be excluded.
    pub fn can_use_deepen_not(&self) -> bool
        ensures { result ≡ can_use_deepening (codes "deepen-not") self.now }
    {
        self.can_deepen("deepen-not")
    }

    /// Whether a depth that counts from the shallow boundary may be requested.
    pub fn can_use_deepen_relative(&self) -> bool
        ensures { result ≡ can_use_deepening (codes "deepen-relative") self.now }
    {
        self.can_deepen("deepen-relative")
    }

    /// Whether refs may be requested by name, with `want-ref`.
    pub fn can_use_ref_in_want(&self) -> bool
        ensures { result ≡ can_use (codes "ref-in-want") self.now }
    {
        has_feature(&self.features, "ref-in-want")
    }

    /// Whether annotated tags may be requested with the objects that they point to.
    pub fn can_use_include_tag(&self) -> bool
        ensures { result ≡ can_use_include_tag self.now }
    {
        self.version == Protocol::V2 || has_feature(&self.features, "include-tag")
    }

    /// Whether a feature can be added. Under versions 0 and 1 it can be added only before the first want.
    pub fn may_add_feature(&self) -> bool
        ensures { result ≡ may_add_feature self.now }
    {
        self.version == Protocol::V2 || !self.wanted
    }

    /// Whether each request must repeat the arguments of the earlier ones: on a stateless transport, and under version 2.
    pub fn is_stateless(&self, transport_is_stateless: bool) -> bool
        ensures { result ≡ (transport_is_stateless || is_v2 self.now.version) }
    {
        transport_is_stateless || self.version == Protocol::V2
    }

    /// Whether there is neither a `have` nor a `want` line. A `want-ref` line doesn't count.
    pub fn is_empty(&self) -> bool
        ensures { result ≡ is_empty self.now }
    {
        self.haves.is_empty() && !has_want(&self.lines)
    }

    /// Whether there is a `have` line.
    pub fn has_haves(&self) -> bool
        ensures { IsTrue result ↔ (0 < length self.now.haves) }
    {
        !self.haves.is_empty()
    }

    // Sends the request and leaves the arguments unchanged.
    fn transmit<T: Transport>(&mut self, transport: &mut T, done: bool) -> Result<(), Error>
        requires { done ≡ false → 0 < length self.old.haves }
        ensures sent { SendsValues (T.reading transport.old) (T.reading transport.new) (request_values self.old done) result }
        ensures same { self.new ≡ self.old }
    {
        if self.version == Protocol::V2 {
            let features = sent_features(self.alloc, &self.features)?;
            return send_command(
                transport,
                self.alloc,
                &features,
                &self.lines,
                &self.haves,
                done,
            );
        }
        send_upload(transport, &mut self.lines, &self.haves, done)
    }

    /// Sends the next request, with the line `done` if `add_done_argument` is true (gitprotocol-v2, "Command Request";
    /// gitprotocol-pack, "Packfile Negotiation").
    ///
    /// Afterwards there are no haves. The argument lines stay, except under versions 0 and 1 on a transport that
    /// persists, whose server remembers them. Under versions 0 and 1 the request, but not the stored arguments, has the
    /// first want and the first line exchanged.
    ///
    /// # Errors
    ///
    /// `LineTooLong` where a line, or under version 2 a feature, has more than 65,515 bytes; nothing was written.
    /// `Memory` where an allocation fails, and `Io` of the transport. Each error leaves the arguments unchanged.
    pub fn send<T: Transport>(
        &mut self,
        transport: &mut T,
        add_done_argument: bool,
    ) -> Result<(), Error>
        requires { add_done_argument ≡ false → 0 < length self.old.haves }
        ensures sent { Sends (T.reading transport.old) (T.reading transport.new)
            (request_fits self.old add_done_argument) (texts_of (request self.old add_done_argument)) result }
        ensures ok { OnOk result (self.new ≡ sent_off (T.reading transport.old).held.persists self.old) }
        ensures err { OnErr result (self.new ≡ self.old) }
    {
        let persists = transport.connection_persists_across_multiple_requests();
        self.transmit(transport, add_done_argument)?;
        self.haves.clear();
        if persists && self.version != Protocol::V2 {
            self.lines.clear();
        }
        Ok(())
    }
}
