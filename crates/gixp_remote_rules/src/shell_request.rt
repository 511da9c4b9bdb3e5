//! Requests to the shell, as text. The first line has the size of the rest in bytes. The second has
//! the verb and names. Then follows a line for each environment variable and each argument.
ghost use Rattle.std.specs.Prelude.{◌≡◌, ◌++◌, IfOk, OnOk, flat_map};
ghost use Rattle.bstr.specs.Owned.{bstring_bytes};
ghost use Rattle.gixp_remote_rules.specs.ShellRequests.{escaped_code, escaped_byte, marked_line, marked_lines, name_with_end, two_names, task_name, program_of, program_name, start_line, start_request, path_request, two_path_request, request_lines, with_size, request_text};

use crate::quote::needs_shell;
use bstr::BString;
use gixp_hash::digits::digit_of;
use std::alloc::{AllocError, Global};

/// The shell's name of a program that it started.
#[derive(Clone, Copy, Debug, PartialEq, Eq)]
pub enum ShellTask {
    /// The server.
    Server,
    /// git, which answers a question.
    Question,
    /// git, which lists the objects of refs while another question is answered.
    Refs,
    /// A program that is asked whether it is OpenSSH, or git that is asked whether it knows an fsck
    /// message.
    Probe,
    /// git, which lists commits.
    Listing,
    /// git, which indexes or unpacks the pack.
    Pack,
    /// git, which lists the configuration. The shell starts it before the program.
    Settings,
}

/// The kinds of programs that the shell starts.
#[derive(Clone, Copy, Debug, PartialEq, Eq)]
pub enum Program {
    /// git. The arguments follow.
    Git,
    /// A program of the user, whose name is the first argument.
    Command,
    /// A command of the user for a shell, which is the first argument. It gets the other arguments.
    Shell,
    /// A connection to a host and a port.
    Socket,
}

impl Program {
    /// The kind of a command of the user: `Shell` if git would pass it to a shell, else `Command`.
    pub fn of_command(command: &[u8]) -> Program
        ensures { result ≡ program_of command.now }
    {
        if needs_shell(command) {
            Program::Shell
        } else {
            Program::Command
        }
    }
}

/// A program to start.
#[derive(Clone, Copy)]
pub struct Start<'a> {
    /// The name for later requests.
    pub task: ShellTask,
    /// The kind of program.
    pub program: Program,
    /// Standard input: a path, the number of a new pipe from the helper, or a file name in the last
    /// folder.
    pub input: &'a str,
    /// Standard output: a path, or the number of a new pipe to the helper.
    pub output: &'a str,
    /// Environment variables: `NAME=VALUE` sets one, `NAME` unsets one.
    pub variables: &'a [BString],
    /// The arguments.
    pub argv: &'a [BString],
}

/// A request to the shell.
#[derive(Clone, Copy)]
pub enum ShellRequest<'a> {
    /// Start a program.
    Start(Start<'a>),
    /// Wait until a program ends, and report its exit status.
    Status(ShellTask),
    /// Kill a program.
    End(ShellTask),
    /// Create a lock file that doesn't exist. The shell removes it at the end, unless another
    /// program changed it.
    Hold(&'a [u8]),
    /// Write the file `boundary` of the last folder over a lock file, and rename that.
    Replace(&'a [u8], &'a [u8]),
    /// Remove a lock file.
    Free(&'a [u8]),
    /// Remove a folder at the end, if it still exists.
    Folder(&'a [u8]),
}

fn escaped_code(byte: u8) -> [u8; 4]
    ensures { result ≡ escaped_code byte }
{
    [b'\\', b'x', digit_of(byte / 16), digit_of(byte % 16)]
}

// Appends an escaped byte. A line feed is written `\n`, a backslash `\\`, and a byte that isn't
// ASCII `\xHH`, so that a shell counts bytes in any locale.
fn append_escaped_byte(text: &mut Vec<u8>, byte: u8) -> Result<(), AllocError>
    ensures { OnOk result (text.new.items ≡ text.old.items ++ escaped_byte byte) }
{
    if byte == b'\n' {
        text.extend_from_slice(b"\\n")
    } else if byte == b'\\' {
        text.extend_from_slice(b"\\\\")
    } else if byte < 128 {
        text.extend_from_slice(&[byte])
    } else {
        text.extend_from_slice(&escaped_code(byte))
    }
}

fn append_escaped(text: &mut Vec<u8>, word: &[u8]) -> Result<(), AllocError>
    ensures { OnOk result (text.new.items ≡ text.old.items ++ flat_map escaped_byte word.now) }
{
    for byte in word {
        append_escaped_byte(text, *byte)?;
    }
    Ok(())
}

// A line for a text, after the mark of its kind.
fn append_line(text: &mut Vec<u8>, mark: u8, word: &[u8]) -> Result<(), AllocError>
    ensures { OnOk result (text.new.items ≡ text.old.items ++ marked_line mark word.now) }
{
    text.push(mark)?;
    append_escaped(text, word)?;
    text.push(b'\n')?;
    Ok(())
}

// The same for an owned text.
fn append_own_line(text: &mut Vec<u8>, mark: u8, word: &BString) -> Result<(), AllocError>
    ensures { OnOk result (text.new.items ≡ text.old.items ++ marked_line mark (bstring_bytes word.now)) }
{
    append_line(text, mark, word.as_bytes())
}

fn append_lines(text: &mut Vec<u8>, mark: u8, argv: &[BString]) -> Result<(), AllocError>
    ensures { OnOk result (text.new.items ≡ text.old.items ++ marked_lines mark argv.now) }
{
    for word in argv {
        append_own_line(text, mark, word)?;
    }
    Ok(())
}

fn task_name(task: ShellTask) -> &'static [u8]
    ensures { result.now ≡ task_name task }
{
    match task {
        ShellTask::Server => b"server",
        ShellTask::Probe => b"probe",
        ShellTask::Question => b"question",
        ShellTask::Refs => b"refs",
        ShellTask::Listing => b"listing",
        ShellTask::Pack => b"pack",
        ShellTask::Settings => b"settings",
    }
}

fn program_name(program: Program) -> &'static [u8]
    ensures { result.now ≡ program_name program }
{
    match program {
        Program::Git => b"git",
        Program::Command => b"command",
        Program::Shell => b"shell",
        Program::Socket => b"socket",
    }
}

// A name, and the byte after it.
fn append_name(text: &mut Vec<u8>, name: &[u8], end: u8) -> Result<(), AllocError>
    ensures { OnOk result (text.new.items ≡ text.old.items ++ name_with_end name.now end) }
{
    text.extend_from_slice(name)?;
    text.push(end)?;
    Ok(())
}

fn append_names(text: &mut Vec<u8>, one: &[u8], other: &[u8], end: u8) -> Result<(), AllocError>
    ensures { OnOk result (text.new.items ≡ text.old.items ++ two_names one.now other.now end) }
{
    append_name(text, one, b' ')?;
    append_name(text, other, end)
}

fn append_start_line(text: &mut Vec<u8>, start: &Start<'_>) -> Result<(), AllocError>
    ensures { OnOk result (text.new.items ≡ text.old.items ++ start_line start.now) }
{
    append_names(text, b"start", task_name(start.task), b' ')?;
    append_name(text, program_name(start.program), b' ')?;
    append_names(text, start.input.as_bytes(), start.output.as_bytes(), b'\n')
}

// The lines that start a program.
fn append_start(text: &mut Vec<u8>, start: &Start<'_>) -> Result<(), AllocError>
    ensures { OnOk result (text.new.items ≡ text.old.items ++ start_request start.now) }
{
    append_start_line(text, start)?;
    append_lines(text, b'=', start.variables)?;
    append_lines(text, b' ', start.argv)
}

// A request about a program.
fn append_task(text: &mut Vec<u8>, verb: &[u8], task: ShellTask) -> Result<(), AllocError>
    ensures { OnOk result (text.new.items ≡ text.old.items ++ two_names verb.now (task_name task) 10) }
{
    append_names(text, verb, task_name(task), b'\n')
}

// A request about a path.
fn append_path(text: &mut Vec<u8>, verb: &[u8], path: &[u8]) -> Result<(), AllocError>
    ensures { OnOk result (text.new.items ≡ text.old.items ++ path_request verb.now path.now) }
{
    text.extend_from_slice(verb)?;
    append_line(text, b' ', path)
}

fn append_paths(text: &mut Vec<u8>, verb: &[u8], from: &[u8], to: &[u8]) -> Result<(), AllocError>
    ensures { OnOk result (text.new.items ≡ text.old.items ++ two_path_request verb.now from.now to.now) }
{
    append_path(text, verb, from)?;
    append_line(text, b' ', to)
}

fn append_request(text: &mut Vec<u8>, request: &ShellRequest<'_>) -> Result<(), AllocError>
    ensures { OnOk result (text.new.items ≡ text.old.items ++ request_lines request.now) }
{
    match request {
        ShellRequest::Start(start) => append_start(text, start),
        ShellRequest::Status(task) => append_task(text, b"status", *task),
        ShellRequest::End(task) => append_task(text, b"end", *task),
        ShellRequest::Hold(path) => append_path(text, b"hold\n", path),
        ShellRequest::Replace(from, to) => append_paths(text, b"replace\n", from, to),
        ShellRequest::Free(path) => append_path(text, b"free\n", path),
        ShellRequest::Folder(path) => append_path(text, b"folder\n", path),
    }
}

// Lines, after a line with their size in bytes.
fn with_size(alloc: Global, lines: &[u8]) -> Result<Vec<u8>, AllocError>
    ensures { IfOk result (λ text. text.items ≡ with_size lines.now) }
{
    let size = format!(in alloc; "{}\n", lines.len())?;
    let mut text = Vec::from_slice(alloc, size.as_bytes())?;
    text.extend_from_slice(lines)?;
    Ok(text)
}

/// The text of a request. It can start only the programs of `Program`. A line feed in an argument
/// doesn't end its line.
pub fn request_text(alloc: Global, request: &ShellRequest<'_>) -> Result<Vec<u8>, AllocError>
    ensures { IfOk result (λ text. text.items ≡ request_text request.now) }
{
    let mut lines = Vec::new(alloc);
    append_request(&mut lines, request)?;
    with_size(alloc, &lines)
}
