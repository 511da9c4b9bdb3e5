//! The lines of a text of refspecs, in which `@` means `HEAD` (gitrevisions, "@").
ghost use Rattle.std.specs.Prelude.{◌≡◌, IfOk, map};
ghost use Rattle.bstr.specs.BStr.{bstr_bytes};
ghost use Rattle.gixp_refspec.specs.Texts.{texts};
ghost use Rattle.gixp_refspec.specs.Spelling.{spelled};
ghost use Rattle.gixp_records.specs.Spelling.{spec_lines};

use bstr::{BStr, BString};
use gixp_refspec::spelling::spelled;
use gixp_utils::text_lines;
use std::alloc::{AllocError, Global};

fn spelled_lines(alloc: Global, lines: &[BStr<'_>]) -> Result<Vec<BString>, AllocError>
    ensures { IfOk result (λ found. texts found ≡ map spelled (map bstr_bytes lines.now)) }
{
    let mut found = Vec::new(alloc);
    for line in lines {
        let line = spelled(alloc, line.as_bytes())?;
        found.push(BString::new(line))?;
    }
    Ok(found)
}

/// The lines of a text of refspecs, with `HEAD` for each source that is `@` alone.
///
/// # Errors
///
/// Only when an allocation fails.
pub fn spec_lines(alloc: Global, text: &[u8]) -> Result<Vec<BString>, AllocError>
    ensures { IfOk result (λ lines. texts lines ≡ spec_lines text.now) }
{
    let lines = text_lines(alloc, text)?;
    spelled_lines(alloc, &lines)
}
