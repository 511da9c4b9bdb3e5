//! A command line parsed into options, their values, and operands.
ghost use Rattle.std.specs.Prelude.{◌≡◌, [], is_some, string_bytes, map};
ghost use Rattle.std.specs.Option.{option_map};
ghost use Rattle.gixp_fetch_cli.specs.declared.command_line.LineError.TheVariants.{Memory};
ghost use Rattle.gixp_fetch_cli.specs.OptionNames.{is_flag, is_of_server, is_of_repository, is_of_fetch, takes_value};
ghost use Rattle.gixp_fetch_cli.specs.OptionNames.{joined_setting, is_dashed, kind_of, value_in};
ghost use Rattle.gixp_fetch_cli.specs.CommandLine.{line_value, next_value, line_of, after_word, after_any_word, after_word_of_kind, AddsWord, ParsesLine};

use std::alloc::{AllocError, AllocFailed, Global};

/// An option and its value, which is empty for a flag.
#[derive(Drop)]
pub struct Setting<'a> {
    pub name: &'a str,
    pub value: &'a str,
}

/// The options and operands of a command line, in order.
#[derive(Drop)]
pub struct CommandLine<'a> {
    pub settings: Vec<Setting<'a>>,
    pub operands: Vec<&'a str>,
}

/// Why a command line can't be parsed.
#[derive(Debug, Drop)]
pub enum LineError<'a> {
    /// No option has this name.
    Unknown(&'a str),
    /// The last word is an option that takes a value.
    NoValue(&'a str),
    /// An allocation failed.
    Memory,
}

impl From<AllocError> for LineError<'_> {
    ghost from_gives = { λ _ e. e ≡ Memory };

    fn from(_e: AllocError) -> Self {
        LineError::Memory
    }
}

impl<T: Drop> From<AllocFailed<T>> for LineError<'_> {
    ghost from_gives = { λ _ e. e ≡ Memory };

    fn from(_e: AllocFailed<T>) -> Self {
        LineError::Memory
    }
}

// How the next word is read.
#[derive(Clone, Copy)]
enum Next<'a> {
    // An option or an operand.
    Any,
    // The value of this option.
    Value(&'a str),
    // An operand, after `--`.
    Operand,
}

// The kind of a word that may be an option.
#[derive(Clone, Copy)]
enum WordKind {
    Flag,
    TakesValue,
    End,
    Operand,
    Unknown,
}

// Whether an option takes no value.
fn is_flag(word: &str) -> bool
    ensures { result ≡ is_flag word.now }
{
    word == "--list"
        || word == "--keep-open"
        || word == "--unshallow"
        || word == "--reject-shallow"
        || word == "--quiet"
        || word == "--progress"
        || word == "--help"
        || word == "-V"
}

// Whether an option takes a value.
fn takes_value(word: &str) -> bool
    ensures { result ≡ takes_value word.now }
{
    is_of_server(word) || is_of_repository(word) || is_of_fetch(word)
}

fn is_of_server(word: &str) -> bool
    ensures { result ≡ is_of_server word.now }
{
    word == "--version" || word == "--path" || word == "--host" || word == "--agent"
}

fn is_of_repository(word: &str) -> bool
    ensures { result ≡ is_of_repository word.now }
{
    word == "--refs"
        || word == "--commits"
        || word == "--objects"
        || word == "--ask"
        || word == "--answers"
        || word == "--shallow"
}

fn is_of_fetch(word: &str) -> bool
    ensures { result ≡ is_of_fetch word.now }
{
    word == "--depth"
        || word == "--deepen"
        || word == "--since"
        || word == "--exclude"
        || word == "--tags"
        || word == "--filter"
        || word == "--negotiator"
        || word == "--report"
}

// The option and the value of a word `OPTION=VALUE`.
fn joined_setting(word: &str) -> Option<(&str, &str)>
    ensures { option_map (λ s. (s.0.now, s.1.now)) result ≡ joined_setting word.now }
{
    match word.split_once('=') {
        Some((name, value)) => {
            if takes_value(name) {
                Some((name, value))
            } else {
                None
            }
        }
        None => None,
    }
}

// Whether a word begins with a dash and has more.
fn is_dashed(word: &str) -> bool
    ensures { result ≡ is_dashed word.now }
{
    match word.as_bytes() {
        [first, _, ..] => *first == b'-',
        _ => false,
    }
}

fn kind_of(word: &str) -> WordKind
    ensures { result ≡ kind_of word.now }
{
    if word == "--" {
        WordKind::End
    } else if is_flag(word) {
        WordKind::Flag
    } else if takes_value(word) {
        WordKind::TakesValue
    } else if is_dashed(word) {
        WordKind::Unknown
    } else {
        WordKind::Operand
    }
}

impl<'a> CommandLine<'a> {
    fn new(alloc: Global) -> CommandLine<'a>
        ensures settings { result.settings.items ≡ [] }
        ensures operands { result.operands.items ≡ [] }
    {
        CommandLine {
            settings: Vec::new(alloc),
            operands: Vec::new(alloc),
        }
    }

    /// Parses the words after the program's name.
    pub fn read(alloc: Global, words: &'a [String]) -> Result<CommandLine<'a>, LineError<'a>>
        ensures { ParsesLine (line_of (map string_bytes words.now)) result }
    {
        let mut line = CommandLine::new(alloc);
        let mut next = Next::Any;
        for word in words {
            match line.add_word(next, word.as_str()) {
                Ok(after) => next = after,
                Err(e) => return Err(e),
            }
        }
        match next {
            Next::Value(name) => Err(LineError::NoValue(name)),
            Next::Any => Ok(line),
            Next::Operand => Ok(line),
        }
    }

    // Adds a word. Returns how the next one is read.
    fn add_word(&mut self, next: Next<'a>, word: &'a str) -> Result<Next<'a>, LineError<'a>>
        ensures { AddsWord (after_word (line_value self.old) (next_value next.entry) word.now) (line_value self.new) result }
    {
        match next {
            Next::Value(name) => {
                self.settings.push(Setting { name, value: word })?;
                Ok(Next::Any)
            }
            Next::Operand => {
                self.operands.push(word)?;
                Ok(Next::Operand)
            }
            Next::Any => self.add_any(word),
        }
    }

    // Adds a word that may be an option.
    fn add_any(&mut self, word: &'a str) -> Result<Next<'a>, LineError<'a>>
        ensures { AddsWord (after_any_word (line_value self.old) word.now) (line_value self.new) result }
    {
        match joined_setting(word) {
            Some((name, value)) => {
                self.settings.push(Setting { name, value })?;
                Ok(Next::Any)
            }
            None => self.add_unjoined(word),
        }
    }

    // Adds a word that isn't `OPTION=VALUE`.
    fn add_unjoined(&mut self, word: &'a str) -> Result<Next<'a>, LineError<'a>>
        ensures { AddsWord (after_word_of_kind (kind_of word.now) (line_value self.old) word.now) (line_value self.new) result }
    {
        match kind_of(word) {
            WordKind::Flag => {
                self.settings.push(Setting {
                    name: word,
                    value: "",
                })?;
                Ok(Next::Any)
            }
            WordKind::TakesValue => Ok(Next::Value(word)),
            WordKind::End => Ok(Next::Operand),
            WordKind::Operand => {
                self.operands.push(word)?;
                Ok(Next::Any)
            }
            WordKind::Unknown => Err(LineError::Unknown(word)),
        }
    }

    /// The last value of an option, if it is present.
    pub fn value(&self, name: &str) -> Option<&'a str>
        ensures { option_map (λ v. v.now) result ≡ value_in (line_value self.now).settings name.now }
    {
        let mut found = None;
        for setting in &self.settings {
            if setting.name == name {
                found = Some(setting.value);
            }
        }
        found
    }

    /// Whether an option is present.
    pub fn has(&self, name: &str) -> bool
        ensures { result ≡ is_some (value_in (line_value self.now).settings name.now) }
    {
        self.value(name).is_some()
    }
}
