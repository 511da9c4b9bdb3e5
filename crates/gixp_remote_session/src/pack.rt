//! Passes the pack to git, which indexes or unpacks it in quarantine: an object directory of its
//! own.
ghost use Rattle.std.specs.Prelude.{◌≡◌, ⊤, IfSome};

pub(crate) mod plan;
pub(crate) mod quarantine;
pub(crate) mod run;
pub(crate) mod state;
mod writer;

use crate::error::error_kind_of;
use crate::pack::plan::PackPlan;
use crate::pack::run::PackRun;
use crate::pack::state::PackState;
use crate::pack::writer::{PackWriter, Stream};
use crate::shallow_observer::ShallowUpdates;
use crate::shell::Shell;
use crate::uris::Uris;
use gixp_fetch_common::PackPlace;
use gixp_remote_rules::ShellTask;
use std::cell::RefCell;
use std::io;
use std::io::ErrorKind;

/// What the server sends before a pack.
#[derive(Clone, Copy)]
pub(crate) struct PackPreamble<'a> {
    /// The updates of the shallow boundary.
    pub(crate) shallow_updates: &'a RefCell<ShallowUpdates>,
    /// The packs that it names by URIs.
    pub(crate) uris: &'a RefCell<Uris>,
}

/// A pack that git receives in quarantine.
#[derive(Drop)]
pub(crate) struct QuarantinedPack<'a> {
    // The run of git, until the writer takes it.
    run: Option<PackRun<'a>>,
}

impl<'a> QuarantinedPack<'a> {
    /// The state before a pack.
    pub(crate) fn new(
        rt: HostRuntime,
        shell: &'a mut Shell,
        plan: PackPlan,
        preamble: PackPreamble<'a>,
    ) -> QuarantinedPack<'a>
        ensures plan { IfSome result.run (λ run. run.plan ≡ plan) }
    {
        shell.pack = PackState::Unbegun;
        shell.lists_gitmodules = false;
        QuarantinedPack {
            run: Some(PackRun {
                rt,
                shell,
                plan,
                shallow_updates: preamble.shallow_updates,
                uris: preamble.uris,
                has_uris: false,
                output: None,
                has_boundary: false,
                count: 0,
                is_unpacked: false,
            }),
        }
    }
}

impl<'a> PackPlace for QuarantinedPack<'a> {
    type Writer = PackWriter<'a>;

    ghost begins = { λ p w q. ⊤ };

    ghost keeps = { λ p w q. ⊤ };

    ghost gives_up = { λ p w q. ⊤ };

    fn begin(&mut self) -> io::Result<PackWriter<'a>> {
        let Some(mut run) = self.run.take() else {
            return Err(io::Error::from(ErrorKind::Other));
        };
        let stream = match run.prepare() {
            Ok(()) => Stream::Header(Vec::new(run.rt.alloc())),
            Err(e) => Stream::Failed(error_kind_of(&e)),
        };
        Ok(PackWriter { run, stream })
    }

    fn keep(&mut self, writer: PackWriter<'a>) -> io::Result<()> {
        let PackWriter { mut run, stream } = writer;
        drop(stream);
        match run.finish() {
            Ok(state) => {
                run.shell.pack = state;
                Ok(())
            }
            Err(e) => Err(io::Error::from(error_kind_of(&e))),
        }
    }

    fn give_up(&mut self, writer: PackWriter<'a>) {
        let PackWriter { mut run, stream } = writer;
        drop(stream);
        let _ = run.shell.end(ShellTask::Pack);
    }
}
