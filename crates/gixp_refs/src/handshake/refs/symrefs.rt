//! Symrefs in capabilities (gitprotocol-capabilities, "symref").
ghost use Rattle.std.specs.Prelude.{◌≡◌, is_some, IfOk, OnOk};
ghost use Rattle.std.specs.BTreeMap.{insert_entry};
ghost use Rattle.std.specs.Option.{option_map};
ghost use Rattle.bstr.specs.Owned.{bstring_bytes};
ghost use Rattle.gixp_capabilities.specs.Capability.{capability_value};
ghost use Rattle.gixp_refs.specs.RefLine.{malformed_symref};
ghost use Rattle.gixp_refs.specs.ParseError.{AnswersRefs, IsParseRefusal};
ghost use Rattle.gixp_capabilities.specs.Cut.{cut};
ghost use Rattle.gixp_refs.specs.RefAdvertisement.{symref_in, symref_by, made_symref, symref_named, reported_target, TellAlike, symref_table};
ghost use Rattle.gixp_refs.specs.V1Refs.{symref_value, symref_values, name_cmp};

use crate::handshake::refs::line::is_null;
use crate::handshake::refs::parse::Error;
use bstr::BString;
use gixp_capabilities::text::cut;
use gixp_capabilities::{Capabilities, Capability};
use std::alloc::{AllocError, Global};
use std::collections::BTreeMap;

// A name, and its target unless the server sent `(null)`.
pub(crate) type Symref = (BString, Option<BString>);

fn malformed(alloc: Global, symref: &[u8]) -> Error
    ensures { IsParseRefusal result (malformed_symref symref.now) }
{
    match BString::from_slice(alloc, symref) {
        Ok(symref) => Error::MalformedSymref { symref },
        Err(_) => Error::Memory,
    }
}

fn make_symref(alloc: Global, name: &[u8], target: &[u8]) -> Result<Symref, Error>
    ensures { AnswersRefs symref_value (made_symref name.now target.now) result }
{
    let name = BString::from_slice(alloc, name)?;
    if is_null(target) {
        return Ok((name, None));
    }
    let target = BString::from_slice(alloc, target)?;
    Ok((name, Some(target)))
}

// Reads the value of a capability `symref`.
fn read_value(alloc: Global, value: &[u8]) -> Result<Symref, Error>
    ensures { AnswersRefs symref_value (symref_by value.now (cut 58 value.now)) result }
{
    let (name, target) = cut(value, b':');
    match target {
        Some(target) if !name.is_empty() && !target.is_empty() => make_symref(alloc, name, target),
        _ => Err(malformed(alloc, value)),
    }
}

// Reads the symref of a capability; `None` if it is another capability or has no value.
pub(crate) fn read_symref(
    alloc: Global,
    capability: Capability<'_>,
) -> Result<Option<Symref>, Error>
    ensures { AnswersRefs (option_map symref_value) (symref_in (capability_value capability.entry)) result }
{
    if capability.name().as_bytes() != b"symref".as_slice() {
        return Ok(None);
    }
    match capability.value() {
        None => Ok(None),
        Some(value) => Ok(Some(read_value(alloc, value.as_bytes())?)),
    }
}

pub(crate) type Targets = BTreeMap<BString, Option<BString>>;

// Maps names to targets. The first symref of a name counts.
pub(crate) fn by_name(alloc: Global, mut symrefs: Vec<Symref>) -> Result<Targets, AllocError>
    ensures { IfOk result (λ targets. TellAlike (symref_values symrefs.items) (symref_values targets.entries)) }
{
    let mut targets = BTreeMap::new(alloc);
    while let Some((name, target)) = symrefs.pop() {
        insert_target(&mut targets, name, target)?;
    }
    Ok(targets)
}

// Inserts a target under a name, in place of an earlier one.
fn insert_target(
    targets: &mut Targets,
    name: BString,
    target: Option<BString>,
) -> Result<(), AllocError>
    ensures { OnOk result (targets.new.entries ≡ insert_entry name_cmp targets.old.entries name target) }
{
    targets.insert(name, target)?;
    Ok(())
}

// The target of the symref of this name, if there is one and the server sent its target.
pub(crate) fn target_of<'a>(targets: &'a Targets, name: &BString) -> Option<&'a BString>
    ensures { option_map (λ s. bstring_bytes s.now) result
        ≡ reported_target (symref_named (symref_values targets.now.entries) (bstring_bytes name.now)) }
{
    match targets.get(name) {
        Some(target) => target.as_ref(),
        None => None,
    }
}

pub(crate) fn is_symref(targets: &Targets, name: &BString) -> bool
    ensures { result ≡ is_some (symref_named (symref_values targets.now.entries) (bstring_bytes name.now)) }
{
    targets.get(name).is_some()
}

/// Reads the symrefs of the capabilities `symref`, in their order (gitprotocol-capabilities, "symref"). A target is
/// `None` where the server sent `(null)`.
///
/// A name may occur more than once; the first one counts.
///
/// # Errors
///
/// The first error: `MalformedSymref` for a value that isn't a name, a colon and a target; or `Memory`.
pub fn from_capabilities(
    alloc: Global,
    capabilities: &Capabilities,
) -> Result<Vec<(BString, Option<BString>)>, Error>
    ensures { AnswersRefs (λ found. symref_values found.items) (symref_table capabilities.now) result }
{
    let mut symrefs = Vec::new(alloc);
    for capability in capabilities.iter() {
        let Some(symref) = read_symref(alloc, capability)? else {
            continue;
        };
        symrefs.push(symref)?;
    }
    Ok(symrefs)
}
