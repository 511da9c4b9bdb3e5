//! A progress reporter that records its calls.
ghost use Rattle.std.specs.Prelude.{◌≡◌, [], false, string_bytes};
ghost use Rattle.std.specs.Option.{option_map};
ghost use Rattle.gixp_doubles.specs.ProgressLog.{call_of, WritesDown, AddsChild};

use gixp_progress::{Discard, NestedProgress, Progress};
use std::alloc::{AllocError, Global};

/// A call of a progress reporter.
#[derive(Debug, Drop)]
pub enum Call {
    /// A new operation, with a number of steps if that is known, and their unit.
    Init(Option<usize>, &'static str),
    /// One more step.
    Step,
    /// The number of steps so far.
    Set(usize),
    /// The name of the operation.
    SetName(String),
    /// An error message.
    Fail(String),
}

// The line of a call.
fn line(alloc: Global, call: &Call) -> Result<String, AllocError> {
    match call {
        Call::Init(_, unit) => format!(in alloc; "{unit}\n"),
        Call::Step => format!(in alloc; "step\n"),
        Call::Set(step) => format!(in alloc; "{step}\n"),
        Call::SetName(name) => format!(in alloc; "{name}\n"),
        Call::Fail(message) => format!(in alloc; "{message}\n"),
    }
}

/// Records its calls, and the ids of its children, which record nothing.
#[derive(Drop)]
pub struct ProgressLog {
    pub calls: Vec<Call>,
    /// The ids of the children that were added.
    pub children: Vec<[u8; 4]>,
    /// Whether a call is missing because an allocation failed.
    pub is_short: bool,
    name: Option<String>,
}

impl ProgressLog {
    /// A reporter without calls.
    pub fn new(alloc: Global) -> ProgressLog
        ensures calls { result.calls.items ≡ [] }
        ensures children { result.children.items ≡ [] }
        ensures whole { result.is_short ≡ false }
    {
        ProgressLog {
            calls: Vec::new(alloc),
            children: Vec::new(alloc),
            is_short: false,
            name: None,
        }
    }

    fn write_down(&mut self, call: Call)
        ensures written { WritesDown self.old (call_of call) self.new }
        ensures name { self.new.name ≡ self.old.name }
    {
        if self.calls.push(call).is_err() {
            self.is_short = true;
        }
    }

    /// The calls, one per line: the unit, `step`, the number, the name or the message.
    ///
    /// # Errors
    ///
    /// When an allocation fails, or when a call is missing.
    pub fn lines(&self, alloc: Global) -> Result<String, AllocError> {
        if self.is_short {
            return Err(AllocError);
        }
        let mut text = String::new(alloc);
        for call in &self.calls {
            text.push_str(line(alloc, call)?.as_str())?;
        }
        Ok(text)
    }
}

impl Progress for ProgressLog {
    ghost reported = { WritesDown };

    ghost name_of = { λ t. option_map string_bytes t.name };

    fn init(&mut self, max: Option<usize>, unit: &'static str) {
        self.write_down(Call::Init(max, unit));
    }

    fn step(&mut self) {
        self.write_down(Call::Step);
    }

    fn set(&mut self, step: usize) {
        self.write_down(Call::Set(step));
    }

    fn set_name(&mut self, name: String) {
        match name.clone() {
            Ok(copy) => self.write_down(Call::SetName(copy)),
            Err(_) => self.is_short = true,
        }
        self.name = Some(name);
    }

    fn name(&self) -> Option<&str> {
        match &self.name {
            Some(name) => Some(name.as_str()),
            None => None,
        }
    }

    fn fail(&mut self, message: String) {
        self.write_down(Call::Fail(message));
    }
}

impl NestedProgress for ProgressLog {
    type SubProgress = Discard;

    ghost adds = { λ old name id child new. AddsChild old id new };

    fn add_child_with_id(&mut self, _name: &str, id: [u8; 4]) -> Result<Discard, AllocError> {
        self.children.push(id)?;
        Ok(Discard)
    }
}

/// A borrowed reporter. Afterwards the owner can read its calls.
#[derive(Drop)]
pub struct Lent<'a> {
    /// The reporter.
    pub reported: &'a mut ProgressLog,
}

impl Progress for Lent<'_> {
    ghost reported = { λ old call new. WritesDown old.reported.now call new.reported.now };

    ghost name_of = { λ t. option_map string_bytes t.reported.now.name };

    fn init(&mut self, max: Option<usize>, unit: &'static str) {
        self.reported.init(max, unit);
    }

    fn step(&mut self) {
        self.reported.step();
    }

    fn set(&mut self, step: usize) {
        self.reported.set(step);
    }

    fn set_name(&mut self, name: String) {
        self.reported.set_name(name);
    }

    fn name(&self) -> Option<&str> {
        self.reported.name()
    }

    fn fail(&mut self, message: String) {
        self.reported.fail(message);
    }
}
