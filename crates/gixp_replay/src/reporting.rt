//! Records progress as text.
ghost use Rattle.std.specs.Prelude.{⊤, string_bytes};
ghost use Rattle.std.specs.Option.{option_map};

use crate::report::Report;
use gixp_progress::Progress;
use std::alloc::Global;

/// A progress reporter that records each call.
#[derive(Drop)]
pub(crate) struct Reporting {
    words: Report,
    name: Option<String>,
}

impl Reporting {
    /// A reporter without calls.
    pub(crate) fn new(alloc: Global) -> Reporting {
        Reporting {
            words: Report::new(alloc),
            name: None,
        }
    }

    /// Writes the calls.
    pub(crate) fn report(&self, report: &mut Report) {
        report.word("told ");
        report.quote_report(&self.words);
        report.word(" ");
    }

    fn call(&mut self, word: &str, text: &str) {
        self.words.word(word);
        self.words.word(text);
        self.words.word("; ");
    }
}

impl Progress for Reporting {
    ghost reported = { λ _ _ _. ⊤ };

    ghost name_of = { λ t. option_map string_bytes t.name };

    fn init(&mut self, max: Option<usize>, unit: &'static str) {
        self.words.word("init ");
        if let Some(max) = max {
            self.words.number(max as u64);
            self.words.word(" ");
        }
        self.words.word(unit);
        self.words.word("; ");
    }

    fn step(&mut self) {
        self.words.word("step; ");
    }

    fn set(&mut self, step: usize) {
        self.words.word("set ");
        self.words.number(step as u64);
        self.words.word("; ");
    }

    fn set_name(&mut self, name: String) {
        self.call("name ", name.as_str());
        self.name = Some(name);
    }

    fn name(&self) -> Option<&str> {
        match &self.name {
            None => None,
            Some(name) => Some(name.as_str()),
        }
    }

    fn fail(&mut self, message: String) {
        self.call("fail ", message.as_str());
    }
}
