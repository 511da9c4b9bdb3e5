//! The conversation with git.
use crate::connect::{
    Connected, ServerContext, connect, drop_session, end_server, end_session, start_server,
    wait_for_exit,
};
use crate::error::{Error, print_error};
use crate::fetching::{OpenSession, fetch};
use crate::job::FetchJob;
use crate::listing::{RefListing, ref_listing};
use crate::pack::quarantine::clear_folder;
use crate::readiness::Readiness;
use crate::relay::Relay;
use crate::server_config::check_password;
use crate::session_id::session_id;
use crate::setup::{StartupInput, read_settings, read_startup, variable, version_of, within};
use crate::shallow_observer::ShallowUpdates;
use crate::shell::Shell;
use crate::uris::Uris;
use bstr::{BString, ByteSlice};
use gixp_fetch_common::session::refs;
use gixp_plain_requests::Missing;
use gixp_remote_rules::{
    Conversation, Reaction, Settings, Within, batch_reply, pass_on, uri_setting,
};
use gixp_url::Address;
use std::cell::{Cell, RefCell};
use std::io;
use std::io::{BufRead, BufReader, Input, Write};

// Writes to standard output.
fn write_to_git(rt: &HostRuntime, text: &[u8]) -> Result<(), Error> {
    let mut writer = io::writer(rt);
    writer.write_all(text)?;
    writer.flush()?;
    Ok(())
}

// Handles git's lines until one needs the server or ends the conversation.
fn next_reaction<R: BufRead>(
    rt: &HostRuntime,
    conversation: &mut Conversation,
    lines: &mut R,
) -> Result<Reaction, Error> {
    let alloc = rt.alloc();
    let mut line = Vec::new(alloc);
    for _ in 0..u64::MAX {
        line.clear();
        if lines.read_until(b'\n', &mut line)? == 0 {
            return Ok(Reaction::Stop);
        }
        let text = line.strip_suffix(b"\n").unwrap_or(&line);
        match conversation.react(alloc, text)? {
            Reaction::Reply(reply) => write_to_git(rt, reply)?,
            Reaction::Refuse => {
                return Err(Error::UnknownCommand(BString::from_slice(alloc, text)?));
            }
            reaction => return Ok(reaction),
        }
    }
    Ok(Reaction::Stop)
}

// The helper during the conversation.
#[derive(Drop)]
struct Helper<'a> {
    context: ServerContext<'a>,
    shell: Shell,
    open: OpenSession<'a>,
    // git's program for HTTP, if it gets git's commands.
    relay: Option<Relay>,
    // The options that git set, and the batch.
    conversation: Conversation,
    // The number of batches that were fetched.
    batches: u64,
    // A text that is unique to this helper.
    mark: Vec<u8>,
}

impl Helper<'_> {
    // Starts the server. If there is a repository, git is asked for its paths at the same time. In
    // a clone with `GIT_DEFAULT_HASH` the paths are asked for later, since git changes the format
    // of the repository after the refs are listed.
    fn begin_server(&mut self) -> Result<(), Error> {
        self.shell.start_watch()?;
        start_server(
            self.context,
            &mut self.shell,
            self.conversation.options.family,
        )?;
        let rt = self.context.rt;
        if variable(rt, "GIT_DIR")?.is_some() && variable(rt, "GIT_DEFAULT_HASH")?.is_none() {
            self.shell.ask_paths()?;
        }
        Ok(())
    }

    // Starts the server, and opens a session with it or passes git's commands on.
    fn connect(&mut self) -> Result<(), Error> {
        self.begin_server()?;
        match connect(self.context, &self.conversation.options)? {
            Connected::Session(session) => self.open = Some(session),
            Connected::Relay(relay) => {
                self.conversation.is_relayed = true;
                self.relay = Some(relay);
            }
        }
        Ok(())
    }

    // The refs, listed over the open session.
    fn refs(&mut self) -> Result<RefListing, Error> {
        let alloc = self.context.rt.alloc();
        let Some(session) = &mut self.open else {
            return Err(Error::Other("no session with the server is open"));
        };
        let lists_format = self.conversation.options.lists_format;
        Ok(ref_listing(alloc, refs(alloc, session)?, lists_format)?)
    }

    fn list(&mut self) -> Result<(), Error> {
        let listing = self.refs()?;
        for name in &listing.broken {
            let _ = eprintln!(self.context.rt; "warning: ignoring ref with broken name {name:?}");
        }
        self.shell.stop_watch()?;
        write_to_git(self.context.rt, &listing.text)
    }

    fn fetch_batch(&mut self) -> Result<(), Error> {
        let alloc = self.context.rt.alloc();
        self.batches = self.batches.saturating_add(1);
        let count = self.batches;
        let number = format!(in alloc; "-{count}")?;
        let mut folder = Vec::from_slice(alloc, &self.mark)?;
        folder.extend_from_slice(number.as_bytes())?;
        let ids = self.conversation.batch.take_ids(alloc)?;
        let job = FetchJob {
            context: self.context,
            options: &self.conversation.options,
            ids: &ids,
        };
        let fetched = fetch(job, &mut self.shell, &mut self.open, &folder)?;
        end_server(self.context, &mut self.shell, self.open.take())?;
        self.shell.stop_watch()?;
        let lock = match &fetched.reply.lock {
            Some(lock) => Some(lock.as_bytes()),
            None => None,
        };
        write_to_git(
            self.context.rt,
            &batch_reply(alloc, lock, fetched.reply.is_connected)?,
        )?;
        // meanwhile git checks what was fetched
        clear_folder(self.context.rt, &fetched.pack);
        Ok(())
    }

    // Whether the server must be started before this: each list and each batch over HTTP has a
    // session of its own, unless git's commands are passed on.
    fn needs_server(&self, reaction: Reaction) -> bool {
        match reaction {
            Reaction::List => self.relay.is_none(),
            Reaction::Fetch => {
                self.context.address.scheme.is_web() && self.open.is_none() && self.relay.is_none()
            }
            Reaction::Stop | Reaction::Reply(_) | Reaction::Refuse => false,
        }
    }

    // Passes a list or a batch on to git's program for HTTP. Returns false if no such program gets
    // git's commands.
    fn relay(&mut self, reaction: Reaction) -> Result<bool, Error> {
        let Some(relay) = &mut self.relay else {
            return Ok(false);
        };
        let rt = self.context.rt;
        let relayed = pass_on(rt.alloc(), &mut self.conversation, reaction)?;
        relay.pass(rt, &mut self.shell, &relayed)?;
        Ok(true)
    }

    // Handles a reaction. Returns whether the conversation goes on.
    fn handle(&mut self, reaction: Reaction) -> Result<bool, Error> {
        if self.needs_server(reaction) {
            self.connect()?;
        }
        match reaction {
            Reaction::List => {
                if !self.relay(reaction)? {
                    self.list()?;
                }
            }
            Reaction::Fetch => {
                if !self.relay(reaction)? {
                    self.fetch_batch()?;
                }
            }
            Reaction::Stop | Reaction::Reply(_) | Reaction::Refuse => return Ok(false),
        }
        Ok(true)
    }

    // Handles this reaction and all that follow.
    fn handle_all<R: BufRead>(&mut self, first: Reaction, lines: &mut R) -> Result<(), Error> {
        let mut reaction = first;
        for _ in 0..u64::MAX {
            if !self.handle(reaction)? {
                return Ok(());
            }
            reaction = next_reaction(self.context.rt, &mut self.conversation, lines)?;
        }
        Ok(())
    }

    // Ends git's program for HTTP, if it gets git's commands. It saves cookies when it exits.
    fn end_relay(&mut self) {
        let Some(relay) = &mut self.relay else {
            return;
        };
        if let Ok(relayed) = pass_on(
            self.context.rt.alloc(),
            &mut self.conversation,
            Reaction::Stop,
        ) {
            relay.finish(&relayed);
        }
        wait_for_exit(&mut self.shell);
    }

    // Ends the session, if one is open.
    fn close(&mut self, is_well: bool) {
        if is_well {
            self.end_relay();
        }
        if let Some(session) = self.open.take() {
            if is_well {
                end_session(self.context, &mut self.shell, session);
            } else {
                drop_session(self.context, session);
            }
        }
    }
}

// The values that a `ServerContext` borrows.
#[derive(Drop)]
struct HelperState {
    rt: HostRuntime,
    startup: StartupInput,
    address: Address,
    settings: Settings,
    session_id: Option<String>,
    // Whether the server reported an error on band 3.
    has_failed: Cell<bool>,
    // The server's updates of the shallow boundary.
    shallow_updates: RefCell<ShallowUpdates>,
    // Whether the server is ready to send the pack.
    readiness: Cell<Readiness>,
    // The capabilities that the server lacks.
    missing: Cell<Missing>,
    // The packs that the server named by URIs.
    uris: RefCell<Uris>,
}

// Runs the conversation from this reaction on.
fn serve<R: BufRead>(
    state: &HelperState,
    shell: Shell,
    conversation: Conversation,
    first: Reaction,
    lines: &mut R,
) -> Result<(), Error> {
    let alloc = state.rt.alloc();
    let mut helper = Helper {
        context: ServerContext {
            rt: &state.rt,
            name: &state.startup.name,
            address: &state.address,
            settings: &state.settings,
            version: version_of(&state.rt, &state.settings)?,
            session_id: state.session_id.as_deref(),
            erases: state.startup.erases,
            has_failed: &state.has_failed,
            shallow_updates: &state.shallow_updates,
            readiness: &state.readiness,
            missing: &state.missing,
            uris: &state.uris,
            uri_setting: uri_setting(alloc, state.settings.value(b"fetch.uriprotocols"))?,
        },
        shell,
        open: None,
        relay: None,
        conversation,
        batches: 0,
        mark: Vec::from_slice(alloc, state.startup.mark.as_bytes())?,
    };
    let done = helper.handle_all(first, lines);
    helper.close(done.is_ok());
    done
}

/// Runs the conversation with git. The configuration is waited for when a server is needed. If git
/// needs an object to answer a question of another helper, this one fails: it would ask the same
/// question again.
pub(crate) fn converse(rt: &HostRuntime) -> Result<(), Error> {
    let alloc = rt.alloc();
    if within(rt)? == Within::Question {
        return Err(Error::Other(
            "nothing is fetched while git answers a question of another helper",
        ));
    }
    let mut startup = read_startup(rt)?;
    let mut shell = Shell::open(rt, startup.requests.as_str(), startup.answers.as_str())?;
    let address = Address::read(alloc, &startup.url)?;
    let mut lines = BufReader::new(alloc, rt.reader())?;
    let mut conversation = Conversation::new(alloc);
    let first = next_reaction(rt, &mut conversation, &mut lines)?;
    if matches!(first, Reaction::Stop) {
        return Ok(());
    }
    let settings = read_settings(alloc, &mut startup, &mut shell)?;
    let setting = settings.value(b"transfer.credentialsinurl");
    if let Some(warning) = check_password(alloc, &startup.url, setting)? {
        print_error(rt, "warning", &warning);
    }
    let session_id = session_id(rt, &settings)?;
    let state = HelperState {
        rt: rt.clone()?,
        startup,
        address,
        settings,
        session_id,
        has_failed: Cell::new(false),
        shallow_updates: RefCell::new(ShallowUpdates::new(alloc)),
        readiness: Cell::new(Readiness::Unready),
        missing: Cell::new(Missing::nothing()),
        uris: RefCell::new(Uris::new(alloc)),
    };
    serve(&state, shell, conversation, first, &mut lines)
}
