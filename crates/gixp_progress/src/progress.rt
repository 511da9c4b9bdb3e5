//! Progress reporters.
ghost use Rattle.std.specs.Prelude.{◌≡◌, ℕ, List, Option, IfOk, string_bytes};
ghost use Rattle.std.specs.Option.{option_copied};
ghost use Rattle.gixp_progress.specs.Progress.{ProgressCall, init, step, set, set_name, fail};

use std::alloc::AllocError;

/// A progress reporter: it shows the progress of a call.
///
/// A reporter may do anything with its calls. Its contract describes each call as one relation of the states before and after it.
pub trait Progress {
    /// The effect of a call.
    ghost reported: { Self → ProgressCall → Self → Type 0 };

    /// The current name.
    ghost name_of: { Self → Option (List ℕ) };

    /// Starts a new count. `max` is the number of steps to come, if it is known, in this unit.
    fn init(&mut self, max: Option<usize>, unit: &'static str)
        ensures { reported self.old (init max unit.now) self.new };

    /// Reports one more step.
    fn step(&mut self)
        ensures { reported self.old step self.new };

    /// Reports that this many steps are done.
    fn set(&mut self, step: usize)
        ensures { reported self.old (set step) self.new };

    /// Sets the name: what is being done now.
    fn set_name(&mut self, name: String)
        ensures { reported self.old (set_name (string_bytes name)) self.new };

    /// The current name, if there is one.
    fn name(&self) -> Option<&str>
        ensures { option_copied result ≡ name_of self.now };

    /// Reports a failure with this message.
    fn fail(&mut self, message: String)
        ensures { reported self.old (fail (string_bytes message)) self.new };
}

/// A progress reporter with parts, each of which reports on its own.
pub trait NestedProgress: Progress {
    /// The reporter of a part.
    type SubProgress: Progress + Drop;

    /// The effect on the reporter of adding a part with this name and id, and the state of the new part.
    ghost adds: { Self → List ℕ → List ℕ → Self.SubProgress → Self → Type 0 };

    /// Adds a part with this name and id.
    ///
    /// # Errors
    ///
    /// Only `AllocError`. It leaves the reporter in any state.
    fn add_child_with_id(
        &mut self,
        name: &str,
        id: [u8; 4],
    ) -> Result<Self::SubProgress, AllocError>
        ensures { IfOk result (λ child. adds self.old name.now id child self.new) };
}
