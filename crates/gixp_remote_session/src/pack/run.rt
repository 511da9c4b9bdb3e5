//! One run of git over a pack: it indexes or unpacks the pack.
ghost use Rattle.std.specs.Prelude.{◌≡◌, if◌then◌else◌, max};
ghost use Rattle.gixp_remote_session.specs.Packs.{is_unpacked, IsStateAfter};

use crate::error::Error;
use crate::pack::plan::PackPlan;
use crate::pack::quarantine::make_folder;
use crate::pack::state::{PackState, indexed_state, unpacked_state};
use crate::pipes::{PACK_INPUT, PACK_OUTPUT};
use crate::setup::within;
use crate::shallow_observer::ShallowUpdates;
use crate::shell::{NOT_STARTED, Shell};
use crate::uris::{Uris, has_uris};
use bstr::BString;
use gix_protocol::fetch::shallow_text;
use gixp_remote_rules::{
    Program, ShellRequest, ShellTask, Start, accepted_pack, lists_gitmodules, pack_count,
    pack_variables, part_argv, unpack_argv, unpacks,
};
use std::alloc::AllocError;
use std::cell::RefCell;
use std::fs;
use std::fs::{File, OpenOptions};
use std::io::{ErrorKind, Read, Write};

/// git's error text for a pack with a bad header.
pub(crate) const BAD_HEADER: &str = "protocol error: bad pack header";

// Starts git for the pack.
fn start_git(shell: &mut Shell, variables: &[BString], argv: &[BString]) -> Result<(), Error> {
    let start = Start {
        task: ShellTask::Pack,
        program: Program::Git,
        input: PACK_INPUT,
        output: PACK_OUTPUT,
        variables,
        argv,
    };
    if shell.ask(&ShellRequest::Start(start))? == 0 {
        Ok(())
    } else {
        shell.pack = PackState::Unstarted;
        Err(Error::Other(NOT_STARTED))
    }
}

// Whether a pack with this many objects is unpacked.
fn is_unpacked(limit: Option<u32>, count: u32) -> bool
    ensures { result ≡ is_unpacked limit count }
{
    match limit {
        Some(limit) => unpacks(limit, count),
        None => false,
    }
}

// The number of objects that counts. With packs from URIs it is at least one, so that the server's
// pack is kept.
fn count_with_uris(count: u32, has_uris: bool) -> u32
    ensures { result ≡ (if has_uris then max count 1 else count) }
{
    if has_uris { count.max(1) } else { count }
}

/// One run of git over a pack.
#[derive(Drop)]
pub(crate) struct PackRun<'a> {
    pub(crate) rt: HostRuntime,
    pub(crate) shell: &'a mut Shell,
    pub(crate) plan: PackPlan,
    pub(crate) shallow_updates: &'a RefCell<ShallowUpdates>,
    /// The packs that the server named by URIs, which precede the pack.
    pub(crate) uris: &'a RefCell<Uris>,
    /// Whether the server named packs by URIs. Then its own pack is kept, even without objects.
    pub(crate) has_uris: bool,
    /// The output of git, once it is started.
    pub(crate) output: Option<File>,
    /// Whether the server sent a boundary before the pack.
    pub(crate) has_boundary: bool,
    /// The number of objects.
    pub(crate) count: u32,
    /// Whether the objects are unpacked.
    pub(crate) is_unpacked: bool,
}

impl PackRun<'_> {
    // Writes the boundary as the server has it into its file. Returns whether the server sent one.
    fn write_boundary(&self) -> Result<bool, Error> {
        let alloc = self.rt.alloc();
        let ids = match self.shallow_updates.try_borrow() {
            Ok(shallow_updates) => shallow_updates.apply_to(alloc, &self.plan.old)?,
            Err(_) => None,
        };
        let Some(ids) = ids else {
            return Ok(false);
        };
        let text = shallow_text(alloc, &ids)?;
        fs::write(&self.rt, self.plan.shallow.as_str(), text.as_slice())?;
        Ok(true)
    }

    /// Creates the quarantine, and writes the boundary.
    pub(crate) fn prepare(&mut self) -> Result<(), Error> {
        make_folder(&self.rt, self.shell, &self.plan)?;
        self.has_boundary = self.write_boundary()?;
        self.has_uris = has_uris(self.uris);
        self.shell.pack = PackState::Begun;
        Ok(())
    }

    fn variables(&self) -> Result<Vec<BString>, Error> {
        Ok(pack_variables(self.rt.alloc(), within(&self.rt)?, &self.plan.variables)?)
    }

    fn unpacking_argv(&self) -> Result<Vec<BString>, AllocError> {
        let shallow = self.plan.shallow.as_bytes();
        if self.has_boundary {
            unpack_argv(self.rt.alloc(), Some(shallow), self.plan.shows_progress)
        } else {
            unpack_argv(self.rt.alloc(), None, self.plan.shows_progress)
        }
    }

    fn start_unpacking(&mut self) -> Result<(), Error> {
        let variables = self.variables()?;
        let argv = self.unpacking_argv()?;
        start_git(self.shell, &variables, &argv)
    }

    fn start_indexing(&mut self) -> Result<(), Error> {
        let variables = self.variables()?;
        let argv = self.plan.argv_for(self.has_boundary);
        if self.has_uris {
            let argv = part_argv(self.rt.alloc(), argv)?;
            return start_git(self.shell, &variables, &argv);
        }
        start_git(self.shell, &variables, argv)
    }

    /// Starts git for a pack with this header, opens the pipes, and writes the header.
    pub(crate) fn start(&mut self, header: &[u8]) -> Result<File, Error> {
        let Some(count) = pack_count(header) else {
            self.shell.pack = PackState::Unreadable;
            return Err(Error::Fatal(BAD_HEADER));
        };
        self.count = count_with_uris(count, self.has_uris);
        self.is_unpacked = !self.has_uris && is_unpacked(self.plan.limit, count);
        if self.is_unpacked {
            self.start_unpacking()?;
        } else {
            self.start_indexing()?;
        }
        // no more haves are sent: the list of commits ends now, while nothing waits for it
        self.shell.end(ShellTask::Listing)?;
        let mut writer = OpenOptions::new().write(true).open(&self.rt, PACK_INPUT)?;
        self.output = Some(File::open(&self.rt, PACK_OUTPUT)?);
        writer.write_all(header)?;
        Ok(writer)
    }

    /// Waits until git exits.
    pub(crate) fn finish(&mut self) -> Result<PackState, Error> {
        // the shell waits at the same time, since git's output fits the pipe
        self.shell.send(&ShellRequest::Status(ShellTask::Pack))?;
        let mut text = Vec::new(self.rt.alloc());
        if let Some(mut output) = self.output.take() {
            output.read_to_end(&mut text)?;
        }
        let status = self.shell.wait_status()?;
        if lists_gitmodules(&text) {
            self.shell.lists_gitmodules = true;
        }
        match self.outcome(&text, status) {
            Some(state) => Ok(state),
            None => Err(Error::Other("git refused the pack")),
        }
    }

    /// Records a failed write: git has exited and reported the reason.
    pub(crate) fn record_write_error(&mut self, kind: ErrorKind) {
        if kind == ErrorKind::BrokenPipe {
            self.shell.pack = PackState::Refused;
        }
    }

    // The state of the pack, by the output of git and its exit status.
    fn outcome(&self, text: &[u8], status: u32) -> Option<PackState>
        ensures { IsStateAfter self.now.is_unpacked self.now.has_boundary self.now.count text.now status result }
    {
        if self.is_unpacked {
            return unpacked_state(self.count, self.has_boundary, status);
        }
        match accepted_pack(text, status) {
            Some(hash) => Some(indexed_state(self.count, hash, self.has_boundary, status)),
            None => None,
        }
    }
}
