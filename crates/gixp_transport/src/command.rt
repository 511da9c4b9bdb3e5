//! The messages of a command of version 2.
ghost use Rattle.std.specs.Prelude.{◌≡◌, [], ◌∷◌, ◌++◌, codes, map, OnOk, IfOk, string_bytes};
ghost use Rattle.std.specs.List.{list_all};
ghost use Rattle.std.specs.Option.{option_map};
ghost use Rattle.bstr.specs.Owned.{bstring_bytes};
ghost use Rattle.gixp_transport.specs.Message.{text, fits, message_value, feature_line, feature_lines, command_lines, argument_values, command_fits, flush};

use crate::message::{Feature, MAX_LINE, Message, lines_fit};
use bstr::BString;
use std::alloc::{AllocError, Global};

fn name_fits(command: &str) -> bool
    ensures { result ≡ fits (codes "command=" ++ command.now) }
{
    command.len() <= MAX_LINE - 8
}

fn feature_fits(name: &str, value: &Option<String>) -> bool
    ensures { result ≡ fits (feature_line name.now (option_map string_bytes value.now)) }
{
    match value {
        Some(value) => name.len() < MAX_LINE && value.len() < MAX_LINE - name.len(),
        None => name.len() <= MAX_LINE,
    }
}

fn features_fit(features: &[Feature]) -> bool
    ensures { result ≡ list_all (λ f. fits (feature_line f.0.now (option_map string_bytes f.1))) features.now }
{
    features
        .iter()
        .all(|feature| feature_fits(feature.0, &feature.1))
}

/// Whether each line of a command with its features and arguments fits into a packet line.
#[tactic(auto, using(crate::proofs::CommandLemmas::command_fits_parts))]
pub(crate) fn command_fits(command: &str, features: &[Feature], arguments: &[BString]) -> bool
    ensures { result ≡ command_fits command.now (feature_lines features.now) (map bstring_bytes arguments.now) }
{
    name_fits(command) && features_fit(features) && lines_fit(arguments)
}

fn feature_line(alloc: Global, name: &str, value: &Option<String>) -> Result<BString, AllocError>
    ensures { IfOk result (λ line. bstring_bytes line ≡ feature_line name.now (option_map string_bytes value.now)) }
{
    let mut line = name.as_bytes().to_vec(alloc)?;
    if let Some(value) = value {
        line.extend_from_slice(b"=")?;
        line.extend_from_slice(value.as_bytes())?;
    }
    Ok(BString::from(line))
}

/// The lines before the arguments: the command's name and its features.
pub(crate) fn command_lines(
    alloc: Global,
    command: &str,
    features: &[Feature],
) -> Result<Vec<BString>, AllocError>
    ensures { IfOk result (λ lines. map bstring_bytes lines.items ≡ command_lines command.now (feature_lines features.now)) }
{
    let mut first = b"command=".to_vec(alloc)?;
    first.extend_from_slice(command.as_bytes())?;
    let mut lines = Vec::new(alloc);
    lines.push(BString::from(first))?;
    for (name, value) in features {
        lines.push(feature_line(alloc, name, value)?)?;
    }
    Ok(lines)
}

// Appends these lines as messages.
fn push_lines<'a>(messages: &mut Vec<Message<'a>>, lines: &'a [BString]) -> Result<(), AllocError>
    ensures { OnOk result (map message_value messages.new.items ≡ map message_value messages.old.items
        ++ map text (map bstring_bytes lines.now)) }
{
    for line in lines {
        messages.push(Message::Line(line.as_bytes()))?;
    }
    Ok(())
}

/// The messages of a command with these lines and arguments.
pub(crate) fn command_messages<'a>(
    alloc: Global,
    lines: &'a [BString],
    arguments: &'a [BString],
) -> Result<Vec<Message<'a>>, AllocError>
    ensures { IfOk result (λ messages. map message_value messages.items ≡
        map text (map bstring_bytes lines.now) ++ argument_values (map bstring_bytes arguments.now) ++ flush ∷ []) }
{
    let mut messages = Vec::new(alloc);
    push_lines(&mut messages, lines)?;
    if !arguments.is_empty() {
        messages.push(Message::Delimiter)?;
        push_lines(&mut messages, arguments)?;
    }
    messages.push(Message::Flush)?;
    Ok(messages)
}
