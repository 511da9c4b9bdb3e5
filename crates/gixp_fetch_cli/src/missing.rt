//! The refspec that makes a fetch fail, since the server has no such ref.
ghost use Rattle.std.specs.Prelude.{◌≡◌, IfOk};
ghost use Rattle.std.specs.Option.{option_map};
ghost use Rattle.bstr.specs.Owned.{bstring_bytes};
ghost use Rattle.gixp_fetch_cli.specs.Missing.{first_single, source_at, missing_name};

use bstr::BString;
use gixp_refmap::RefMap;
use gixp_refspec::RefSpec;
use gixp_updates::refs::unmatched::{UnmatchedSpec, unmatched};
use std::alloc::{AllocError, Global};

// The index of the first refspec that is no pattern.
fn first_single(notes: &[UnmatchedSpec]) -> Option<usize>
    ensures { result ≡ first_single notes.now }
{
    for note in notes {
        if !note.is_pattern {
            return Some(note.index);
        }
    }
    None
}

fn source_at(alloc: Global, specs: &[RefSpec], place: usize) -> Result<Option<BString>, AllocError>
    ensures { IfOk result (λ found. option_map bstring_bytes found ≡ source_at specs.now place) }
{
    match specs.get(place) {
        Some(spec) => Ok(Some(BString::from_slice(alloc, spec.to_ref().source)?)),
        None => Ok(None),
    }
}

/// The source of the first refspec that matches no ref of the server, and is no pattern: `git fetch` fails for it
/// (`couldn't find remote ref`).
///
/// # Errors
///
/// An allocation failure alone.
pub fn missing_name(alloc: Global, map: &RefMap) -> Result<Option<BString>, AllocError>
    ensures { IfOk result (λ found. option_map bstring_bytes found ≡ missing_name map.now.remote_refs.items map.now.refspecs.items) }
{
    let notes = unmatched(alloc, map)?;
    match first_single(&notes) {
        Some(place) => source_at(alloc, &map.refspecs, place),
        None => Ok(None),
    }
}
