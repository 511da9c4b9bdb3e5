//! The answers of the shell and of git: exit statuses, and texts that must have an end.
ghost use Rattle.std.specs.Prelude.{◌≡◌};
ghost use Rattle.std.specs.Option.{option_map};
ghost use Rattle.gixp_remote_rules.specs.GitAnswers.{exit_status, has_reported, message_id, without_end, path_answer, after_front, time_answer};

/// The exit status in an answer of the shell. `None` if no such program was started: the shell
/// answers with a number that isn't an exit status then.
pub fn exit_status(answer: u32) -> Option<u32>
    ensures { result ≡ exit_status answer }
{
    if answer < 256 { Some(answer) } else { None }
}

/// Whether git has reported why it failed.
pub fn has_reported(status: u32) -> bool
    ensures { result ≡ has_reported status }
{
    status == 128
}

/// Whether git has an fsck message (git-fsck, "FSCK MESSAGES").
#[derive(Clone, Copy, Debug, PartialEq, Eq)]
pub enum MessageId {
    /// git has it.
    Known,
    /// git doesn't have it.
    Unknown,
}

/// Whether git knows an fsck message, by the exit status of `Question::Check`. `None` if git
/// couldn't answer.
pub fn message_id(status: u32) -> Option<MessageId>
    ensures { result ≡ message_id status }
{
    match status {
        129 => Some(MessageId::Known),
        128 => Some(MessageId::Unknown),
        _ => None,
    }
}

// A text without the byte that must end it.
fn without_end(text: &[u8], end: u8) -> Option<&[u8]>
    ensures { option_map (λ t. t.now) result ≡ without_end end text.now }
{
    match text.strip_suffix(&[end]) {
        Some(front) => Some(front),
        None => None,
    }
}

/// The path that git prints for `Question::SkipList`. `None` if it printed none, or not all of it.
pub fn path_answer(text: &[u8], status: u32) -> Option<&[u8]>
    ensures { option_map (λ t. t.now) result ≡ path_answer status text.now }
{
    if status == 0 {
        without_end(text, 0)
    } else {
        None
    }
}

// The number after `--max-age=`, in a whole line.
fn after_front(text: &[u8]) -> Option<&[u8]>
    ensures { option_map (λ t. t.now) result ≡ after_front text.now }
{
    match text.strip_prefix(b"--max-age=") {
        Some(rest) => without_end(rest, b'\n'),
        None => None,
    }
}

/// The seconds that git prints for `Question::Time`. `None` if it printed none, or not all of them.
pub fn time_answer(text: &[u8], status: u32) -> Option<&[u8]>
    ensures { option_map (λ t. t.now) result ≡ time_answer status text.now }
{
    if status == 0 { after_front(text) } else { None }
}
