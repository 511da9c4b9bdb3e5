//! The refspecs of a text, one per line (git-fetch, "<refspec>").
ghost use Rattle.std.specs.Prelude.{◌≡◌, ◌++◌, IfOk, OnOk, map};
ghost use Rattle.std.specs.List.{flat_map};
ghost use Rattle.bstr.specs.BStr.{bstr_bytes};
ghost use Rattle.bstr.specs.Owned.{bstring_bytes};
ghost use Rattle.gixp_refspec.specs.Matching.{prefixes_of};
ghost use Rattle.gixp_refspec.specs.RefSpec.{value_of};
ghost use Rattle.gixp_refspec.specs.Texts.{texts};
ghost use Rattle.gixp_records.specs.SpecText.{AddsLineSpec, ReadsSpecLines, WritesPrefixes, ended_line};
ghost use Rattle.gixp_records.specs.Spelling.{spec_lines};

use crate::spelling::spec_lines;
use bstr::{BStr, BString};
use gixp_refspec::RefSpecRef;
use gixp_refspec::parse::{Error, Operation, parse};
use std::alloc::{AllocError, AllocFailed, Global};

/// The error of reading refspecs.
#[derive(Clone, Copy, Debug, Drop)]
pub enum SpecsRefused {
    /// The first line that isn't a valid refspec.
    Spec(Error),
    /// An allocation failed.
    Memory,
}

impl From<AllocError> for SpecsRefused {
    ghost use Rattle.std.specs.Prelude.{◌≡◌};
    ghost use Rattle.gixp_records.specs.declared.spec_text.SpecsRefused.TheVariants.{Memory};

    ghost from_gives = { λ _ error. error ≡ Memory };

    fn from(_e: AllocError) -> SpecsRefused {
        SpecsRefused::Memory
    }
}

impl<T: Drop> From<AllocFailed<T>> for SpecsRefused {
    ghost use Rattle.std.specs.Prelude.{◌≡◌};
    ghost use Rattle.gixp_records.specs.declared.spec_text.SpecsRefused.TheVariants.{Memory};

    ghost from_gives = { λ _ error. error ≡ Memory };

    fn from(_e: AllocFailed<T>) -> SpecsRefused {
        SpecsRefused::Memory
    }
}

// Adds the refspec of a line, unless the line is empty.
fn push_spec<'a>(line: BStr<'a>, specs: &mut Vec<RefSpecRef<'a>>) -> Result<(), SpecsRefused>
    ensures { AddsLineSpec (bstr_bytes line.entry) specs.old.items specs.new.items result }
{
    if line.as_bytes().is_empty() {
        return Ok(());
    }
    match parse(line, Operation::Fetch) {
        Ok(spec) => match specs.push(spec) {
            Ok(()) => Ok(()),
            Err(_) => Err(SpecsRefused::Memory),
        },
        Err(e) => Err(SpecsRefused::Spec(e)),
    }
}

fn line_specs<'a>(alloc: Global, lines: &'a [BString]) -> Result<Vec<RefSpecRef<'a>>, SpecsRefused>
    ensures { ReadsSpecLines (map bstring_bytes lines.now) result }
{
    let mut specs = Vec::new(alloc);
    for line in lines {
        match push_spec(BStr::new(line.as_bytes()), &mut specs) {
            Ok(()) => {}
            Err(e) => return Err(e),
        }
    }
    Ok(specs)
}

/// The refspecs of lines, as [`spec_lines`] returns them. Empty lines are skipped. The refspecs borrow the lines.
///
/// # Errors
///
/// `Spec` for the first line that isn't a valid refspec, or `Memory`.
pub fn specs_in<'a>(
    alloc: Global,
    lines: &'a Vec<BString>,
) -> Result<Vec<RefSpecRef<'a>>, SpecsRefused>
    ensures { ReadsSpecLines (texts lines.now) result }
{
    line_specs(alloc, lines)
}

fn prefixes_of(alloc: Global, specs: &[RefSpecRef<'_>]) -> Result<Vec<BString>, AllocError>
    ensures { IfOk result (λ found. texts found ≡ flat_map prefixes_of (map value_of specs.now)) }
{
    let mut prefixes = Vec::new(alloc);
    for spec in specs {
        spec.expand_prefixes(alloc, &mut prefixes)?;
    }
    Ok(prefixes)
}

// Adds a line and an LF.
fn push_line(text: &mut Vec<u8>, line: &[u8]) -> Result<(), AllocError>
    ensures { OnOk result (text.new.items ≡ text.old.items ++ ended_line line.now) }
{
    text.extend_from_slice(line)?;
    text.extend_from_slice(b"\n")
}

// The lines, each with an LF.
fn text_of_lines(alloc: Global, lines: &[BString]) -> Result<Vec<u8>, AllocError>
    ensures { IfOk result (λ text. text.items ≡ flat_map ended_line (map bstring_bytes lines.now)) }
{
    let mut text = Vec::new(alloc);
    for line in lines {
        push_line(&mut text, line.as_bytes())?;
    }
    Ok(text)
}

/// The ref prefixes of the refspecs in a text, one refspec per line. A source that is `@` alone means `HEAD`. The prefixes of each
/// refspec in turn, each followed by an LF (gitprotocol-v2, `ref-prefix`).
///
/// # Errors
///
/// `Spec` for the first line that isn't a valid refspec, or `Memory`.
pub fn prefix_text(alloc: Global, text: &[u8]) -> Result<Vec<u8>, SpecsRefused>
    ensures { WritesPrefixes (spec_lines text.now) result }
{
    let lines = spec_lines(alloc, text)?;
    let specs = match specs_in(alloc, &lines) {
        Ok(specs) => specs,
        Err(e) => return Err(e),
    };
    let Ok(prefixes) = prefixes_of(alloc, &specs) else {
        return Err(SpecsRefused::Memory);
    };
    match text_of_lines(alloc, &prefixes) {
        Ok(entries) => Ok(entries),
        Err(_) => Err(SpecsRefused::Memory),
    }
}
