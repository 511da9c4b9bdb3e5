//! The conversation with git, line by line (gitremote-helpers, "COMMANDS").
ghost use Rattle.std.specs.Prelude.{◌≡◌, IfOk, OnOk};
ghost use Rattle.gixp_remote_rules.specs.Conversation.{conversation_value, first_state, reaction_value, with_option_line, set_option, add_want, end_of_batch, reaction_to};

use crate::argv::{add, concat};
use crate::batch::Batch;
use crate::command::{HelperCommand, parse_command};
use crate::fetch_reply::capabilities;
use crate::options::{HelperOptions, OptionReply};
use bstr::BString;
use std::alloc::{AllocError, Global};

/// The options that git set, and the batch that it is sending.
#[derive(Drop)]
pub struct Conversation {
    /// The options.
    pub options: HelperOptions,
    /// The lines of the options that were accepted. git's program for HTTP didn't get them yet.
    pub option_lines: Vec<BString>,
    /// The batch.
    pub batch: Batch,
    /// Whether git's program for HTTP gets git's commands (`pass_on`). It reads the ids itself.
    pub is_relayed: bool,
}

/// What the helper does after a line.
#[derive(Clone, Copy, Debug, PartialEq, Eq)]
pub enum Reaction {
    /// Write this reply, which may be empty.
    Reply(&'static [u8]),
    /// List the refs.
    List,
    /// Fetch the batch.
    Fetch,
    /// End.
    Stop,
    /// Refuse the line: it isn't a command of git.
    Refuse,
}

impl Conversation {
    /// The state before the first line.
    pub fn new(alloc: Global) -> Conversation
        ensures { conversation_value result ≡ first_state }
    {
        Conversation {
            options: HelperOptions::new(alloc),
            option_lines: Vec::new(alloc),
            batch: Batch::new(alloc),
            is_relayed: false,
        }
    }

    // Records the line of an option, if it was accepted.
    fn record_option(
        &mut self,
        alloc: Global,
        reply: OptionReply,
        line: &[u8],
    ) -> Result<(), AllocError>
        ensures { OnOk result (conversation_value self.new ≡ with_option_line (conversation_value self.old) reply line.now) }
    {
        match reply {
            OptionReply::Ok => {
                let line = concat(alloc, &[line, b"\n"])?;
                add(alloc, &mut self.option_lines, &line)
            }
            OptionReply::Unsupported | OptionReply::Error => Ok(()),
        }
    }

    fn set_option(
        &mut self,
        alloc: Global,
        name: &[u8],
        value: &[u8],
        line: &[u8],
    ) -> Result<Reaction, AllocError>
        ensures { IfOk result (λ reaction. (conversation_value self.new, reaction_value reaction)
            ≡ set_option (conversation_value self.old) name.now value.now line.now) }
    {
        let reply = self.options.set(alloc, name, value)?;
        self.record_option(alloc, reply, line)?;
        Ok(Reaction::Reply(reply.to_text()))
    }

    // Adds the command to fetch an object.
    fn add_want(&mut self, id: &[u8], line: &[u8]) -> Result<Reaction, AllocError>
        ensures { IfOk result (λ reaction. (conversation_value self.new, reaction_value reaction)
            ≡ add_want (conversation_value self.old) id.now line.now) }
    {
        let is_id = self.batch.add(id)?;
        if is_id || self.is_relayed {
            self.batch.add_line(line)?;
            Ok(Reaction::Reply(b""))
        } else {
            Ok(Reaction::Refuse)
        }
    }

    // The reaction to an empty line.
    fn end_of_batch(&self) -> Reaction
        ensures { reaction_value result ≡ end_of_batch (conversation_value self.now) }
    {
        if self.batch.is_empty() {
            Reaction::Stop
        } else {
            Reaction::Fetch
        }
    }

    /// Handles a line without its line feed, and returns what the helper must do.
    ///
    /// # Errors
    ///
    /// Only when an allocation fails.
    pub fn react(&mut self, alloc: Global, line: &[u8]) -> Result<Reaction, AllocError>
        ensures { IfOk result (λ reaction. (conversation_value self.new, reaction_value reaction) ≡ reaction_to (conversation_value self.old) line.now) }
    {
        match parse_command(line) {
            HelperCommand::Capabilities => Ok(Reaction::Reply(capabilities())),
            HelperCommand::List => Ok(Reaction::List),
            HelperCommand::Option(name, value) => self.set_option(alloc, name, value, line),
            HelperCommand::Fetch(id, _) => self.add_want(id, line),
            HelperCommand::End => Ok(self.end_of_batch()),
            HelperCommand::Unknown => Ok(Reaction::Refuse),
        }
    }
}
