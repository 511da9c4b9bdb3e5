//! A web server that doesn't speak version 2: git's commands go on to git's own program for HTTP,
//! and its answers to git.
ghost use Rattle.std.specs.Prelude.{◌≡◌, true, false, MatchResult};
ghost use Rattle.gixp_remote_session.specs.declared.error.Error.TheVariants.{AlreadyReported};

use crate::error::Error;
use crate::shell::Shell;
use gixp_remote_rules::{Relayed, copy_answer, send_options};
use std::alloc::Global;
use std::fs::File;
use std::io;
use std::io::{BufReader, BufWriter, Write};

/// The pipes to git's program for HTTP and from it.
#[derive(Drop)]
pub(crate) struct Relay {
    pub(crate) from: BufReader<File>,
    pub(crate) to: BufWriter<File>,
}

// Fails if the program exited before the end of its answer. It has reported why.
fn expect_whole(is_whole: bool) -> Result<(), Error>
    ensures { MatchResult result (λ _. is_whole ≡ true) (λ e. (e ≡ AlreadyReported) × (is_whole ≡ false)) }
{
    if is_whole {
        Ok(())
    } else {
        Err(Error::AlreadyReported)
    }
}

impl Relay {
    // Sends a command.
    fn send(&mut self, command: &[u8]) -> Result<(), Error> {
        self.to.write_all(command)?;
        self.to.flush()?;
        Ok(())
    }

    // Sends options and a command, and copies the answer without the empty line that ends it.
    fn copy<W: Write>(
        &mut self,
        alloc: Global,
        relayed: &Relayed,
        git: &mut W,
    ) -> Result<(), Error> {
        let has_replied = send_options(alloc, &mut self.from, &mut self.to, &relayed.options)?;
        expect_whole(has_replied)?;
        self.send(&relayed.command)?;
        expect_whole(copy_answer(alloc, &mut self.from, git)?)
    }

    /// Passes options and a command on, and the answer to git. git may write after the empty line
    /// that ends it, so it isn't watched then. If the program exits before that line, git gets the
    /// lines that came.
    pub(crate) fn pass(
        &mut self,
        rt: &HostRuntime,
        shell: &mut Shell,
        relayed: &Relayed,
    ) -> Result<(), Error> {
        let mut git = BufWriter::new(rt.alloc(), io::writer(rt))?;
        shell.start_watch()?;
        let copied = self.copy(rt.alloc(), relayed, &mut git);
        shell.stop_watch()?;
        if copied.is_ok() {
            git.write_all(b"\n")?;
        }
        git.flush()?;
        copied
    }

    /// Tells the program that the conversation is over. It may have exited.
    pub(crate) fn finish(&mut self, relayed: &Relayed) {
        let _ = self.send(&relayed.command);
    }
}
