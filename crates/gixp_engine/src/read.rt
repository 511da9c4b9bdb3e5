//! The caller's arguments as values.
ghost use Rattle.std.specs.Prelude.{◌≡◌, IfOk, map};
ghost use Rattle.std.specs.FinMap as finite;
ghost use Rattle.gixp_refspec.specs.RefSpec.{value_of, owned_value_of};
ghost use Rattle.gixp_response.specs.AnswerLine.{id_from};
ghost use Rattle.bstr.specs.BStr.{bstr_bytes};
ghost use Rattle.gixp_engine.specs.Handed.{HandsIds, HandsSpecs, HandsAnswers, refused_specs, objects_held};
ghost use Rattle.gixp_engine.specs.Limits.{HandsFilter, AddsName, HandsNames};
ghost use Rattle.gixp_utils.specs.Lines.{text_lines};

use crate::error::EngineError;
use bstr::{BStr, BString};
use gixp_hash::ObjectId;
use gixp_memory::StoredObjects;
use gixp_records::{SpecsRefused, spec_lines, specs_in};
use gixp_refmap::refmap::init::Context;
use gixp_refspec::{PartialName, RefSpec, RefSpecRef};
use gixp_transport::Body;
use gixp_utils::text_lines;
use std::alloc::{AllocError, Global};

fn ids_from(alloc: Global, whole: &[[u8; 20]]) -> Result<Vec<ObjectId>, AllocError>
    ensures { IfOk result (λ ids. ids.items ≡ map id_from whole.now) }
{
    let mut ids = Vec::new(alloc);
    for id in whole {
        ids.push(ObjectId { bytes: *id })?;
    }
    Ok(ids)
}

/// The ids in some bytes, 20 bytes each.
///
/// # Errors
///
/// `Lengths` if the bytes aren't whole ids, or `Memory`.
pub fn ids_of(alloc: Global, bytes: &[u8]) -> Result<Vec<ObjectId>, EngineError>
    ensures { HandsIds bytes.now result }
{
    let (whole, rest) = bytes.as_chunks::<20>();
    if !rest.is_empty() {
        return Err(EngineError::Lengths);
    }
    match ids_from(alloc, whole) {
        Ok(ids) => Ok(ids),
        Err(_) => Err(EngineError::Memory),
    }
}

fn owned_specs(alloc: Global, specs: &[RefSpecRef<'_>]) -> Result<Vec<RefSpec>, AllocError>
    ensures { IfOk result (λ owned. map owned_value_of owned.items ≡ map value_of specs.now) }
{
    let mut owned = Vec::new(alloc);
    for spec in specs {
        owned.push(spec.to_owned(alloc)?)?;
    }
    Ok(owned)
}

fn refused_specs(e: SpecsRefused) -> EngineError
    ensures { result ≡ refused_specs e }
{
    match e {
        SpecsRefused::Spec(e) => EngineError::Spec(e),
        SpecsRefused::Memory => EngineError::Memory,
    }
}

/// The refspecs of a text, one per line. Empty lines are skipped. A source that is `@` alone means `HEAD` (gitrevisions, "@").
///
/// # Errors
///
/// `Spec` for the first line that isn't a valid refspec, or `Memory`.
pub fn specs_of(alloc: Global, text: &[u8]) -> Result<Context, EngineError>
    ensures { HandsSpecs text.now result }
{
    let lines = spec_lines(alloc, text)?;
    let specs = match specs_in(alloc, &lines) {
        Ok(specs) => specs,
        Err(e) => return Err(refused_specs(e)),
    };
    match owned_specs(alloc, &specs) {
        Ok(fetch_refspecs) => Ok(Context {
            fetch_refspecs,
            extra_refspecs: Vec::new(alloc),
        }),
        Err(_) => Err(EngineError::Memory),
    }
}

/// The filter of a text (git-rev-list, `--filter`). An empty text is none.
///
/// # Errors
///
/// `Filter` if the text isn't UTF-8, or `Memory`.
pub fn filter_of(alloc: Global, text: &[u8]) -> Result<Option<String>, EngineError>
    ensures { HandsFilter text.now result }
{
    if text.is_empty() {
        return Ok(None);
    }
    let Ok(text) = str::from_utf8(text) else {
        return Err(EngineError::Filter);
    };
    match String::from_str(alloc, text) {
        Ok(filter) => Ok(Some(filter)),
        Err(_) => Err(EngineError::Memory),
    }
}

// Adds the name of a line.
fn push_name(alloc: Global, line: BStr<'_>, names: &mut Vec<PartialName>) -> Result<(), EngineError>
    ensures { AddsName (bstr_bytes line.entry) names.old.items names.new.items result }
{
    let Ok(text) = BString::from_slice(alloc, line.as_bytes()) else {
        return Err(EngineError::Memory);
    };
    match PartialName::new(text) {
        Ok(name) => match names.push(name) {
            Ok(()) => Ok(()),
            Err(_) => Err(EngineError::Memory),
        },
        Err(_) => Err(EngineError::Name),
    }
}

fn line_names(alloc: Global, lines: &[BStr<'_>]) -> Result<Vec<PartialName>, EngineError>
    ensures { HandsNames (map bstr_bytes lines.now) result }
{
    let mut names = Vec::new(alloc);
    for line in lines {
        match push_name(alloc, *line, &mut names) {
            Ok(()) => {}
            Err(e) => return Err(e),
        }
    }
    Ok(names)
}

/// The names of refs in a text, one per line.
///
/// # Errors
///
/// `Name` if a line isn't a valid name (git-check-ref-format, with `--allow-onelevel`), or `Memory`.
pub fn names_of(alloc: Global, text: &[u8]) -> Result<Vec<PartialName>, EngineError>
    ensures { HandsNames (text_lines text.now) result }
{
    match text_lines(alloc, text) {
        Ok(lines) => line_names(alloc, &lines),
        Err(_) => Err(EngineError::Memory),
    }
}

/// The responses that end at these offsets, one after another.
///
/// # Errors
///
/// `Lengths` if the offsets aren't in order, or the last one isn't the end of the bytes. Or `Memory`.
pub(crate) fn answers_of(
    alloc: Global,
    bytes: &[u8],
    ends: &[usize],
) -> Result<Vec<Body>, EngineError>
    ensures { HandsAnswers bytes.now ends.now result }
{
    let mut answers = Vec::new(alloc);
    let mut start = 0;
    for end in ends {
        let Some(answer) = bytes.get(start..*end) else {
            return Err(EngineError::Lengths);
        };
        answers.push(Body::Bytes(Vec::from_slice(alloc, answer)?))?;
        start = *end;
    }
    if start != bytes.len() {
        return Err(EngineError::Lengths);
    }
    Ok(answers)
}

/// The caller's objects, whose kinds are unknown.
pub(crate) fn objects_of(alloc: Global, haves: &[ObjectId]) -> Result<StoredObjects, AllocError>
    ensures { IfOk result (λ objects. objects ≡ objects_held finite.empty haves.now) }
{
    let mut objects = StoredObjects::new(alloc);
    for id in haves {
        objects.add_id(*id)?;
    }
    Ok(objects)
}
