//! A session with a server.
ghost use Rattle.std.specs.Prelude.{◌≡◌, ◌≢◌, ◌&&◌, true, false, [], Some, None, Ok, Err, IfOk, IfErr, OnOk, OnErr, MatchResult, is_some, string_bytes, Result};
ghost use Rattle.std.specs.Option.{option_map};
ghost use Rattle.gixp_transport.specs.declared.service.Service.TheVariants.{UploadPack};
ghost use Rattle.gixp_transport.specs.Greeting.{parameters_of};
ghost use Rattle.gixp_response.specs.Sections.{is_flush};
ghost use Rattle.gixp_refmap.specs.Mapping.{unknown_format};
ghost use Rattle.gixp_handshake.specs.HandshakeValues.{refs_value};
ghost use Rattle.gixp_handshake.specs.ShakeProgress.{ReportsHandshake};
ghost use Rattle.gixp_client.specs.ClientCalls.{OpensSession, FailsToOpen, FailsWithoutAccount, GivesRefs, MapsInSession, ClosesSession, needs_no_list};
ghost use Rattle.gixp_client.specs.ClientNames.{is_session_id, named_by};
ghost use Rattle.gixp_client.specs.Filters.{offers_filter};
ghost use Rattle.gixp_client.specs.ListEnds.{IsUnasked, are_whole, is_lossy};
ghost use Rattle.gixp_client.specs.SessionRefs.{KeepsListedRefs, ListFailsInSession, MapFailsInSession, ReportsAsked, ReportsMap};
ghost use Rattle.gixp_client.specs.declared.session.Session.{Session as AnySession};

use crate::by_id::{are_ids, seen_refs};
use crate::error::Error;
use crate::list_ends::{are_whole, is_at_flush, is_lossy, unknown_format, whole_map, whole_refs};
use crate::listen::Listener;
use crate::messages::Messages;
use crate::name::{ClientName, is_session_id};
use crate::outcome::can_filter;
use crate::request::Request;
use crate::state::{State, state_after_map, state_after_refusal};
use crate::tap::Tap;
use bstr::BString;
use gixp_capabilities::Capabilities;
use gixp_handshake::credentials::{self, Action};
use gixp_handshake::handshake::{handshake, obtain};
use gixp_handshake::{Handshake, indicate_end_of_interaction};
use gixp_packetline::Protocol;
use gixp_progress::{Discard, NestedProgress};
use gixp_refmap::refmap::copied_refs;
use gixp_refmap::{LsRefsCommand, RefMap};
use gixp_refs::handshake::Ref;
use gixp_requests::command::CommandTable;
use gixp_transport::{Service, Transport};
use std::alloc::{AllocError, Global};

/// A session with a server. After the handshake, the caller can list and map its refs, and fetch what is mapped. Under version 2 it
/// can do so repeatedly.
///
/// A failed call leaves the session in the state that `state` returns:
///
/// - A call that fails before its first request is ready, or that gives up while the server waits for a request, leaves the state
///   unchanged.
/// - A server that sends an error message closes the connection. The session has ended.
/// - After a failed read or write, or a response that can't be read, the session is broken.
///
/// After the latter two every call returns `Error::Over` and sends nothing. Dropping a session closes it.
pub struct Session<T: Transport + Drop, L: Listener + Drop, P: NestedProgress + Drop = Discard> {
    pub(crate) alloc: Global,
    pub(crate) transport: Tap<T, Messages<L>>,
    pub(crate) shaken: Handshake,
    pub(crate) name: ClientName,
    pub(crate) state: State,
    pub(crate) progress: P,
}

fn has_refs(refs: &Option<Vec<Ref>>) -> bool
    ensures { result ≡ is_some refs.now }
{
    match refs {
        Some(_) => true,
        None => false,
    }
}

// Returns `UnsupportedRefName` if advertised refs lost white space of a name.
fn expect_names(refs: &Option<Vec<Ref>>, lost_white_space: bool) -> Result<(), Error>
    ensures names { OnOk result ((is_some refs.now && lost_white_space) ≡ false) }
    ensures refused { IfErr result (λ e. (is_some refs.now ≡ true) × (e ≡ Error.UnsupportedRefName)) }
{
    if has_refs(refs) && lost_white_space {
        Err(Error::UnsupportedRefName)
    } else {
        Ok(())
    }
}

impl<T: Transport + Drop, L: Listener + Drop> Session<T, L, Discard> {
    /// Performs the handshake, without an account (gitprotocol-pack, "Reference Discovery"; gitprotocol-v2, "Capability
    /// Advertisement"). The transport decides which versions are accepted. `agent` is sent as the name of the client. The
    /// listener receives the server's messages.
    ///
    /// # Errors
    ///
    /// `Handshake` if it fails, `UnsupportedRefName` if the name of an advertised ref ends in white space outside ASCII, or `Memory`.
    /// The transport is dropped.
    pub fn open(
        alloc: Global,
        transport: T,
        agent: &str,
        listener: L,
    ) -> Result<Session<T, L, Discard>, Error>
        ensures opened { IfOk result (λ s. OpensSession [] T.is_plain (T.reading transport) (T.reading s.transport.inner) s.shaken) }
        ensures named { IfOk result (λ s. string_bytes s.name.agent ≡ agent.now) }
        ensures nameless { IfOk result (λ s. s.name.session_id ≡ None) }
        ensures state { IfOk result (λ s. s.state ≡ State.AtStop) }
        ensures names { IfOk result (λ s. (is_some s.shaken.refs && s.transport.observer.lost_white_space) ≡ false) }
        ensures refused { IfErr result (FailsWithoutAccount T.is_plain (T.reading transport)) }
    {
        match Session::open_with(
            alloc,
            transport,
            agent,
            listener,
            |_: Action| -> Result<Option<credentials::Outcome>, credentials::Error>
                ensures { result ≡ Ok None }
            { Ok(None) },
            Vec::new(alloc),
            Discard,
        ) {
            Ok(session) => Ok(session),
            Err(why) => Err(why),
        }
    }
}

impl<T: Transport + Drop, L: Listener + Drop, P: NestedProgress + Drop> Session<T, L, P> {
    /// Performs the handshake like `open`, with these parameters in addition to the transport's own. If the server wants an
    /// account, `authenticate` is called to get one, and afterwards to store or to erase it (gitcredentials). The progress reporter
    /// receives the reports of all calls of the session, as documented at `handshake`, `obtain` and `fetch`.
    ///
    /// # Errors
    ///
    /// As `open`.
    pub fn open_with<A>(
        alloc: Global,
        transport: T,
        agent: &str,
        listener: L,
        authenticate: A,
        extra_parameters: Vec<(String, Option<String>)>,
        progress: P,
    ) -> Result<Session<T, L, P>, Error>
    where
        A: FnMut(Action) -> Result<Option<credentials::Outcome>, credentials::Error> + Drop,
        requires { A.IsAlwaysCallable authenticate }
        ensures opened { IfOk result (λ s. OpensSession (parameters_of extra_parameters.items) T.is_plain (T.reading transport)
            (T.reading s.transport.inner) s.shaken) }
        ensures named { IfOk result (λ s. string_bytes s.name.agent ≡ agent.now) }
        ensures nameless { IfOk result (λ s. s.name.session_id ≡ None) }
        ensures state { IfOk result (λ s. s.state ≡ State.AtStop) }
        ensures report { IfOk result (λ s. ReportsHandshake P.reported UploadPack (parameters_of extra_parameters.items) (T.reading transport) progress
            (Ok s.shaken) s.progress) }
        ensures names { IfOk result (λ s. (is_some s.shaken.refs && s.transport.observer.lost_white_space) ≡ false) }
        ensures refused { IfErr result (FailsToOpen A.step authenticate (parameters_of extra_parameters.items) T.is_plain (T.reading transport)) }
    {
        let agent = String::from_str(alloc, agent)?;
        let mut transport = Tap::new(transport, Messages::new(alloc, listener));
        let mut progress = progress;
        let shaken = handshake(
            alloc,
            &mut transport,
            Service::UploadPack,
            authenticate,
            extra_parameters,
            &mut progress,
        )?;
        expect_names(&shaken.refs, transport.observer.lost_white_space)?;
        Ok(Session {
            alloc,
            transport,
            shaken,
            name: ClientName {
                agent,
                session_id: None,
            },
            state: State::AtStop,
            progress,
        })
    }

    /// Sets the session id. From now on each fetch request has it if the server accepts one (gitprotocol-v2, "session-id";
    /// gitprotocol-capabilities, "session-id"). Returns false, and changes nothing, unless the id is one or more printable ASCII
    /// characters without a blank.
    ///
    /// # Errors
    ///
    /// Only when an allocation fails. Then nothing is changed.
    pub fn set_session_id(&mut self, id: &str) -> Result<bool, AllocError>
        ensures fits { IfOk result (λ fits. fits ≡ is_session_id id.now) }
        ensures held { result ≡ Ok true → option_map string_bytes self.new.name.session_id ≡ Some id.now }
        ensures rest { self.new ≡ record self.old { name = record self.old.name { session_id = self.new.name.session_id } } }
        ensures unchanged { result ≢ Ok true → self.new ≡ self.old }
    {
        if !is_session_id(id.as_bytes()) {
            return Ok(false);
        }
        let id = String::from_str(self.alloc, id)?;
        self.name.session_id = Some(id);
        Ok(true)
    }

    /// Whether another call is possible.
    pub fn state(&self) -> State
        ensures { result ≡ self.now.state }
    {
        self.state
    }

    /// The protocol version that the server speaks.
    pub fn version(&self) -> Protocol
        ensures { result ≡ self.now.shaken.server_protocol_version }
    {
        self.shaken.server_protocol_version
    }

    /// The server's capabilities.
    pub fn capabilities(&self) -> &Capabilities
        ensures { result.now ≡ self.now.shaken.capabilities }
    {
        &self.shaken.capabilities
    }

    /// Whether the server offers filters. If not, a fetch whose request has a filter fails.
    ///
    /// # Errors
    ///
    /// Only when an allocation fails.
    pub fn can_filter(&self) -> Result<bool, AllocError>
        ensures { IfOk result (λ can. can ≡ offers_filter self.now.shaken) }
    {
        can_filter(self.alloc, &self.shaken)
    }

    /// The listener.
    pub fn listener(&self) -> &L
        ensures { result.now ≡ self.now.transport.observer.listener }
    {
        &self.transport.observer.listener
    }

    /// The progress reporter.
    pub fn progress(&self) -> &P
        ensures { result.now ≡ self.now.progress }
    {
        &self.progress
    }

    // Returns `Over` if the session is broken or has ended.
    pub(crate) fn expect_open(&self) -> Result<(), Error>
        ensures { MatchResult result (λ _. self.now.state ≡ State.AtStop) (λ e. (e ≡ Error.Over) × (self.now.state ≢ State.AtStop)) }
    {
        match self.state {
            State::AtStop => Ok(()),
            State::Ended | State::Broken => Err(Error::Over),
        }
    }

    // Returns `UnknownObjectFormat` if the server names an object format other than SHA-1.
    fn expect_format(&self) -> Result<(), Error>
        ensures known { OnOk result (unknown_format self.now.shaken.capabilities ≡ None) }
        ensures refused { IfErr result (IsUnasked self.now.state self.now.shaken.capabilities) }
    {
        match unknown_format(&self.shaken.capabilities) {
            None => Ok(()),
            Some(format) => Err(Error::UnknownObjectFormat {
                format: BString::from_slice(self.alloc, format.as_bytes())?,
            }),
        }
    }

    // Lists all refs, and keeps them.
    fn ask_refs(&mut self) -> Result<(), Error>
        ensures over { self.old.state ≢ State.AtStop → (result ≡ Err Error.Over) × (self.new ≡ self.old) }
        ensures other { unknown_format self.old.shaken.capabilities ≢ None → self.new ≡ self.old }
        ensures format { OnOk result (unknown_format self.old.shaken.capabilities ≡ None) }
        ensures listed { OnOk result (KeepsListedRefs T.is_plain T.reading self.old self.new) }
        ensures ended { OnOk result (is_flush (T.reading self.new.transport.inner).stopped ≡ true) }
        ensures names { OnOk result (self.new.transport.observer.lost_white_space ≡ false) }
        ensures refused { IfErr result (ListFailsInSession T.is_plain T.reading self.old self.new) }
        ensures report { ReportsAsked P.reported self.old.progress result self.new.progress }
        ensures stays { OnOk result (self.new.state ≡ self.old.state) }
        ensures name { self.new.name ≡ self.old.name }
    {
        self.expect_open()?;
        self.expect_format()?;
        let table = CommandTable::git();
        let name = self.name.agent_feature(self.alloc)?;
        let command = LsRefsCommand::new(
            self.alloc,
            &table,
            None,
            &self.shaken.capabilities,
            name,
        )?;
        self.transport.observer.lost_white_space = false;
        let listed = command.invoke_blocking(self.alloc, &mut self.transport, &mut self.progress);
        match whole_refs(
            listed,
            is_at_flush(&self.transport),
            self.transport.observer.lost_white_space,
        ) {
            Ok(refs) => {
                self.shaken.refs = Some(refs);
                Ok(())
            }
            Err(e) => {
                self.state = state_after_refusal(self.shaken.server_protocol_version, &e);
                Err(e)
            }
        }
    }

    /// Lists all refs of the server, unless the session has them already: from the handshake (versions 0 and 1) or from an earlier
    /// call (version 2; gitprotocol-v2, "ls-refs"). The session keeps them, and makes later ref maps from them.
    ///
    /// # Errors
    ///
    /// - `Refs`, `Request` or `UnsupportedListing` if the refs can't be listed.
    /// - `UnterminatedRefs` if the list doesn't end with a flush packet.
    /// - `UnsupportedRefName` if a name in the list ends in white space outside ASCII.
    /// - `UnknownObjectFormat` if the server's object format isn't SHA-1. Nothing is sent.
    /// - `Over`, or `Memory`.
    ///
    /// No refs are kept then. `state` returns the state of the session.
    pub fn list(&mut self) -> Result<(), Error>
        ensures here { self.old.shaken.refs ≢ None → (result ≡ Ok tt) × (self.new ≡ self.old) }
        ensures over { self.old.shaken.refs ≡ None → self.old.state ≢ State.AtStop → (result ≡ Err Error.Over) × (self.new ≡ self.old) }
        ensures other { unknown_format self.old.shaken.capabilities ≢ None → self.new ≡ self.old }
        ensures format { self.old.shaken.refs ≡ None → OnOk result (unknown_format self.old.shaken.capabilities ≡ None) }
        ensures listed { self.old.shaken.refs ≡ None → OnOk result (KeepsListedRefs T.is_plain T.reading self.old self.new) }
        ensures ended { self.old.shaken.refs ≡ None → OnOk result (is_flush (T.reading self.new.transport.inner).stopped ≡ true) }
        ensures names { self.old.shaken.refs ≡ None → OnOk result (self.new.transport.observer.lost_white_space ≡ false) }
        ensures refused { IfErr result (ListFailsInSession T.is_plain T.reading self.old self.new) }
        ensures report { self.old.shaken.refs ≡ None → ReportsAsked P.reported self.old.progress result self.new.progress }
        ensures stays { OnOk result (self.new.state ≡ self.old.state) }
        ensures name { self.new.name ≡ self.old.name }
    {
        match self.shaken.refs {
            Some(_) => Ok(()),
            None => self.ask_refs(),
        }
    }

    /// All refs of the server, listed as by `list`.
    ///
    /// # Errors
    ///
    /// As `list`. Refs that the session has already are returned in every state.
    pub fn refs(&mut self) -> Result<&[Ref], Error>
        ensures given { IfOk result (λ refs. GivesRefs (named_by self.old.name) self.old.shaken T.is_plain
            (T.reading self.old.transport.inner) self.old.shaken.refs refs.now) }
        ensures here { OnErr result (self.old.shaken.refs ≡ None) }
        ensures refused { IfErr result (λ e. (new : AnySession T L P P.SubProgress) × ListFailsInSession T.is_plain T.reading self.old new e) }
    {
        match self.list() {
            Ok(()) => {}
            Err(e) => return Err(e),
        }
        match &self.shaken.refs {
            Some(refs) => Ok(refs),
            None => Ok(&[]),
        }
    }

    // A copy of the refs that the session has already.
    fn refs_here(&self) -> Result<Option<Vec<Ref>>, AllocError>
        ensures { IfOk result (λ refs. option_map refs_value refs ≡ option_map refs_value self.now.shaken.refs) }
    {
        match &self.shaken.refs {
            Some(refs) => Ok(Some(copied_refs(refs)?)),
            None => Ok(None),
        }
    }

    /// Maps the server's refs by the refspecs of a request and the refspec of its tags (git-fetch, "<refspec>").
    ///
    /// If the session has all refs, from the handshake or a call of `refs`, nothing is sent. Nor is it if each refspec names an
    /// object by its id and no tags are requested. Otherwise the server lists the refs that have the prefixes of these refspecs, at
    /// each call anew, and only the map keeps them. A list for other refspecs is never used
    /// ([`laws::maps_list_again`](crate::laws::maps_list_again)).
    ///
    /// # Errors
    ///
    /// - `Refs`, `Request` or `UnsupportedListing` if the refs can't be listed.
    /// - `UnterminatedRefs` if the list doesn't end with a flush packet.
    /// - `UnsupportedRefName` if a name in the list ends in white space outside ASCII.
    /// - `Conflicts` if two refs map to one local name.
    /// - `UnknownObjectFormat` if the server's object format isn't SHA-1. Nothing is sent.
    /// - `Over`, or `Memory`.
    pub fn map(&mut self, request: &Request) -> Result<RefMap, Error>
        ensures over { self.old.state ≢ State.AtStop → (result ≡ Err Error.Over) × (self.new ≡ self.old) }
        ensures mapped { IfOk result (λ m. MapsInSession request.now (named_by self.old.name)
            self.old.shaken T.is_plain
            (T.reading self.old.transport.inner) (T.reading self.new.transport.inner) (Ok m)) }
        ensures whole { OnOk result (are_whole (needs_no_list request.now self.old.shaken)
            (T.reading self.new.transport.inner).stopped ≡ true) }
        ensures names { OnOk result (is_lossy (needs_no_list request.now self.old.shaken) self.new.transport.observer.lost_white_space
            ≡ false) }
        ensures format { OnOk result (unknown_format self.old.shaken.capabilities ≡ None) }
        ensures other { unknown_format self.old.shaken.capabilities ≢ None → self.new ≡ self.old }
        ensures refused { IfErr result (MapFailsInSession T.is_plain T.reading request.now self.old self.new) }
        ensures stays { OnOk result (self.new.state ≡ self.old.state) }
        ensures report { IfOk result (λ m. ReportsMap P.reported (needs_no_list request.now self.old.shaken) self.old.progress
            (Ok m) self.new.progress) }
        ensures handshake { self.new.shaken ≡ record self.old.shaken { refs = self.new.shaken.refs } }
        ensures refs { option_map refs_value self.new.shaken.refs ≡ option_map refs_value self.old.shaken.refs }
        ensures name { self.new.name ≡ self.old.name }
    {
        self.expect_open()?;
        self.expect_format()?;
        let context = request.context()?;
        let name = self.name.agent_feature(self.alloc)?;
        let here = self.refs_here()?;
        let refs = self.shaken.refs.take();
        self.shaken.refs = seen_refs(self.alloc, refs, are_ids(&context));
        let is_here = has_refs(&self.shaken.refs);
        let version = self.shaken.server_protocol_version;
        self.transport.observer.lost_white_space = false;
        let made = obtain(
            self.alloc,
            &mut self.shaken,
            &request.table(),
            name,
            context,
            &mut self.progress,
            &mut self.transport,
        );
        self.shaken.refs = here;
        match whole_map(
            made,
            are_whole(is_here, &self.transport),
            is_lossy(is_here, self.transport.observer.lost_white_space),
        ) {
            Ok(map) => Ok(map),
            Err(e) => {
                self.state = state_after_map(is_here, version, &e);
                Err(e)
            }
        }
    }

    /// Returns the transport. Nothing is sent to the server.
    pub fn into_transport(self) -> T
        ensures { result ≡ self.transport.inner }
    {
        let Session {
            alloc: _alloc,
            transport,
            shaken: _shaken,
            name: _name,
            state: _state,
            progress: _progress,
        } = self;
        transport.into_inner()
    }

    /// Ends the session with a flush packet if the server waits for a request (gitprotocol-v2, "Command Request"; gitprotocol-pack,
    /// "Packfile Negotiation"). Otherwise nothing is sent: a server of version 0 or 1 has ended after its pack, or the session is
    /// broken.
    ///
    /// # Errors
    ///
    /// `Request` if the write fails, or `Memory`. The session is over in each case.
    pub fn close(&mut self) -> Result<(), Error>
        ensures closes { ClosesSession self.old.state (T.reading self.old.transport.inner) (T.reading self.new.transport.inner) result }
        ensures over { self.new.state ≢ State.AtStop }
    {
        match self.state {
            State::AtStop => {
                self.state = State::Ended;
                match indicate_end_of_interaction(&mut self.transport) {
                    Ok(()) => Ok(()),
                    Err(e) => Err(Error::from(e)),
                }
            }
            State::Ended => Ok(()),
            State::Broken => Ok(()),
        }
    }
}

impl<T: Transport + Drop, L: Listener + Drop, P: NestedProgress + Drop> Drop for Session<T, L, P> {
    // Closes the session. Errors are ignored: the server may have closed the connection already.
    fn drop(mut self) {
        let _ = self.close();
        let Session {
            alloc: _alloc,
            transport: _transport,
            shaken: _shaken,
            name: _name,
            state: _state,
            progress: _progress,
        } = self;
    }
}
