//! The calls of a progress reporter for a text that the server sent.
ghost use Rattle.std.specs.Prelude.{◌≡◌, [], ◌∷◌, ◌++◌, IfOk, OnOk, OnErr, codes, string_bytes};
ghost use Rattle.std.specs.List.{before_first};
ghost use Rattle.std.specs.Str.Lossy.{utf8_lossy};
ghost use Rattle.bstr.specs.BStr.{bstr_bytes};
ghost use Rattle.gixp_progress.specs.Progress.{ReportedCalls, init, set_name};
ghost use Rattle.gixp_progress.specs.Line.{is_colon};
ghost use Rattle.gixp_progress.specs.Translation.{name_for, error_calls, set_calls, calls_for};

use crate::progress::Progress;
use crate::remote_progress::RemoteProgress;
use std::alloc::{AllocError, Global};

// A name up to its first colon.
fn front(shown: &str) -> &str
    ensures { result.now ≡ before_first is_colon shown.now }
{
    match shown.split_once(':') {
        Some((front, _)) => front,
        None => shown,
    }
}

// The new name: the current name up to its first colon, and this text.
fn joined_name(alloc: Global, shown: &str, text: &[u8]) -> Result<String, AllocError>
    ensures { IfOk result (λ name. string_bytes name ≡ before_first is_colon shown.now ++ codes ": " ++ utf8_lossy text.now) }
{
    let mut name = String::from_str(alloc, front(shown))?;
    let lossy = String::from_utf8_lossy(alloc, text)?;
    name.push_str(": ")?;
    name.push_str(lossy.as_str())?;
    Ok(name)
}

// The new name; without a current one it is this text.
fn name_for<P: Progress>(alloc: Global, progress: &P, text: &[u8]) -> Result<String, AllocError>
    ensures { IfOk result (λ name. string_bytes name ≡ name_for (P.name_of progress.now) text.now) }
{
    match progress.name() {
        None => String::from_utf8_lossy(alloc, text),
        Some(shown) => joined_name(alloc, shown, text),
    }
}

// Reports an error text of the server, unless it is empty.
fn report_error<P: Progress>(alloc: Global, text: &[u8], progress: &mut P) -> Result<(), AllocError>
    ensures ok { OnOk result (ReportedCalls P.reported progress.old (error_calls text.now) progress.new) }
    ensures err { OnErr result (progress.new ≡ progress.old) }
{
    if text.is_empty() {
        return Ok(());
    }
    let message = String::from_utf8_lossy(alloc, text)?;
    progress.fail(message);
    Ok(())
}

fn set_step<P: Progress>(progress: &mut P, step: Option<usize>)
    ensures { ReportedCalls P.reported progress.old (set_calls step) progress.new }
{
    if let Some(step) = step {
        progress.set(step);
    }
}

fn show_line<P: Progress>(
    alloc: Global,
    line: RemoteProgress<'_>,
    progress: &mut P,
) -> Result<(), AllocError>
    ensures ok { OnOk result (ReportedCalls P.reported progress.old
        (set_name (name_for (P.name_of progress.old) (bstr_bytes line.entry.action)) ∷ init line.entry.max (codes "objects")
        ∷ set_calls line.entry.step) progress.new) }
    ensures err { OnErr result (progress.new ≡ progress.old) }
{
    let name = name_for(alloc, progress, line.action.as_bytes())?;
    progress.set_name(name);
    progress.init(line.max, "objects");
    set_step(progress, line.step);
    Ok(())
}

// Shows any other text as a name.
fn show_text<P: Progress>(alloc: Global, text: &[u8], progress: &mut P) -> Result<(), AllocError>
    ensures ok { OnOk result (ReportedCalls P.reported progress.old (set_name (name_for (P.name_of progress.old) text.now) ∷ []) progress.new) }
    ensures err { OnErr result (progress.new ≡ progress.old) }
{
    let name = name_for(alloc, progress, text)?;
    progress.set_name(name);
    Ok(())
}

impl RemoteProgress<'_> {
    /// Shows a text that the server sent.
    ///
    /// - An error text is a failure, unless it is empty.
    /// - A progress line sets the name, a maximum in objects, and the step.
    /// - Any other text sets the name.
    ///
    /// A new name is the current one up to its first colon, then `: `, then the new text. U+FFFD replaces what isn't UTF-8.
    ///
    /// # Errors
    ///
    /// Only an allocation failure. Nothing was reported then.
    pub fn translate_to_progress<P: Progress>(
        alloc: Global,
        is_error: bool,
        text: &[u8],
        progress: &mut P,
    ) -> Result<(), AllocError>
        ensures ok { OnOk result (ReportedCalls P.reported progress.old (calls_for is_error text.now (P.name_of progress.old)) progress.new) }
        ensures err { OnErr result (progress.new ≡ progress.old) }
    {
        if is_error {
            return report_error(alloc, text, progress);
        }
        match RemoteProgress::from_bytes(text) {
            Some(line) => show_line(alloc, line, progress),
            None => show_text(alloc, text, progress),
        }
    }
}
