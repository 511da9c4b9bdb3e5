//! What git's own program for HTTP gets of git's commands if the server doesn't speak version 2
//! (gitremote-helpers, "option", "list", "fetch").
ghost use Rattle.std.specs.Prelude.{◌≡◌, map, IfOk, OnOk};
ghost use Rattle.bstr.specs.Owned.{bstring_bytes};
ghost use Rattle.gixp_remote_rules.specs.Conversation.{conversation_value, reaction_value, lists, fetches};
ghost use Rattle.gixp_remote_rules.specs.Relay.{relayed_value, only_command, passed_on, without_option_lines, after_passing};

use crate::conversation::{Conversation, Reaction};
use bstr::BString;
use std::alloc::{AllocError, Global};
use std::mem;

/// What is passed on to git's program for HTTP.
#[derive(Drop)]
pub struct Relayed {
    /// The lines of options. The program replies to each.
    pub options: Vec<BString>,
    /// The lines of a command, which follow the options.
    pub command: Vec<u8>,
}

// A command without options.
fn only_command(alloc: Global, command: &[u8]) -> Result<Relayed, AllocError>
    ensures { IfOk result (λ relayed. relayed_value relayed ≡ only_command command.now) }
{
    Ok(Relayed {
        options: Vec::new(alloc),
        command: Vec::from_slice(alloc, command)?,
    })
}

// Takes out the lines of the options.
fn take_options(alloc: Global, conversation: &mut Conversation) -> Vec<BString>
    ensures taken { map bstring_bytes result.items ≡ map bstring_bytes conversation.old.option_lines.items }
    ensures left { conversation_value conversation.new ≡ without_option_lines (conversation_value conversation.old) }
{
    mem::replace(&mut conversation.option_lines, Vec::new(alloc))
}

fn pass_list(alloc: Global, conversation: &mut Conversation) -> Result<Relayed, AllocError>
    ensures passed { IfOk result (λ relayed. relayed_value relayed ≡ passed_on (conversation_value conversation.old) lists) }
    ensures left { OnOk result (conversation_value conversation.new ≡ after_passing (conversation_value conversation.old) lists) }
{
    let command = Vec::from_slice(alloc, b"list\n")?;
    let options = take_options(alloc, conversation);
    Ok(Relayed { options, command })
}

fn pass_batch(alloc: Global, conversation: &mut Conversation) -> Result<Relayed, AllocError>
    ensures passed { IfOk result (λ relayed. relayed_value relayed ≡ passed_on (conversation_value conversation.old) fetches) }
    ensures left { OnOk result (conversation_value conversation.new ≡ after_passing (conversation_value conversation.old) fetches) }
{
    let mut command = conversation.batch.take_lines(alloc);
    command.push(b'\n')?;
    let options = take_options(alloc, conversation);
    Ok(Relayed { options, command })
}

/// Takes out what git's program for HTTP gets after a line of git: before a list and a batch the
/// options that were accepted since the last of these, and an empty line at the end of the
/// conversation. The helper itself replies to options.
///
/// # Errors
///
/// Only when an allocation fails. Some of it may be taken out then.
pub fn pass_on(
    alloc: Global,
    conversation: &mut Conversation,
    reaction: Reaction,
) -> Result<Relayed, AllocError>
    ensures passed { IfOk result (λ relayed. relayed_value relayed
        ≡ passed_on (conversation_value conversation.old) (reaction_value reaction)) }
    ensures left { OnOk result (conversation_value conversation.new
        ≡ after_passing (conversation_value conversation.old) (reaction_value reaction)) }
{
    match reaction {
        Reaction::List => pass_list(alloc, conversation),
        Reaction::Fetch => pass_batch(alloc, conversation),
        Reaction::Stop => only_command(alloc, b"\n"),
        Reaction::Reply(_) | Reaction::Refuse => only_command(alloc, b""),
    }
}
