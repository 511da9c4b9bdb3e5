//! The commands that git sends to a remote helper (gitremote-helpers, "COMMANDS").
ghost use Rattle.std.specs.Prelude.{◌≡◌};
ghost use Rattle.gixp_remote_rules.specs.Command.{cut_blank, command_value, command_of};

use crate::text::find_byte;

/// A command of git.
#[derive(Clone, Copy, Debug, PartialEq, Eq)]
pub enum HelperCommand<'a> {
    /// List the capabilities.
    Capabilities,
    /// List the refs.
    List,
    /// Set an option: its name and its value.
    Option(&'a [u8], &'a [u8]),
    /// Fetch an object: its id, and the name of a ref.
    Fetch(&'a [u8], &'a [u8]),
    /// An empty line: the end of a batch, or of the conversation.
    End,
    /// Any other line.
    Unknown,
}

// The text before the first space, and after it. The second is empty if there is no space.
fn cut_blank(text: &[u8]) -> (&[u8], &[u8])
    ensures { (result.0.now, result.1.now) ≡ cut_blank text.now }
{
    match find_byte(text, b' ') {
        Some(at) => (&text[..at], &text[at + 1..]),
        None => (text, b""),
    }
}

/// Parses a line without its line feed.
pub fn parse_command(line: &[u8]) -> HelperCommand<'_>
    ensures { command_value result ≡ command_of line.now }
{
    let (word, rest) = cut_blank(line);
    if line.is_empty() {
        HelperCommand::End
    } else if line == b"capabilities".as_slice() {
        HelperCommand::Capabilities
    } else if line == b"list".as_slice() {
        HelperCommand::List
    } else if word == b"option".as_slice() {
        let (name, value) = cut_blank(rest);
        HelperCommand::Option(name, value)
    } else if word == b"fetch".as_slice() {
        let (id, name) = cut_blank(rest);
        HelperCommand::Fetch(id, name)
    } else {
        HelperCommand::Unknown
    }
}
