//! Names of refs in a set, so that a name is looked up instead of compared with each.
ghost use Rattle.std.specs.Prelude.{ℕ, List, ◌≡◌, ◌||◌, IfOk, OnOk, is_some};
ghost use Rattle.std.specs.List.{list_any};
ghost use Rattle.std.specs.Str.{bytes_eq};
ghost use Rattle.gixp_refs.specs.Ref.{unpacked_target};
ghost use Rattle.gixp_refspec.specs.Matching.{candidates, joined, rule_of};
ghost use Rattle.gixp_updates.specs.RefNames.{has_text, is_named, HasNames};

use gixp_refs::handshake::Ref;
use gixp_refspec::needle::RULES;
use gixp_refspec::text::joined;
use std::alloc::{AllocError, Global};
use std::collections::BTreeSet;

/// Whether a ref of the server has an object.
pub(crate) fn has_object(found: &Ref) -> bool
    ensures { result ≡ is_some (unpacked_target found.now) }
{
    found.unpack().1.is_some()
}

fn add_name<'r>(names: &mut BTreeSet<&'r [u8]>, name: &'r [u8]) -> Result<(), AllocError>
    ensures { OnOk result ((text : List ℕ) → has_text names.new text ≡ (has_text names.old text || bytes_eq text name.now)) }
{
    names.insert(name)?;
    Ok(())
}

// Adds the name of a ref, if the ref has an object.
fn add_ref<'r>(names: &mut BTreeSet<&'r [u8]>, found: &'r Ref) -> Result<(), AllocError>
    ensures { OnOk result ((text : List ℕ) → has_text names.new text ≡ (has_text names.old text || is_named text found.now)) }
{
    if has_object(found) {
        add_name(names, found.name().as_bytes())?;
    }
    Ok(())
}

/// The names of the refs that have an object. Each look-up takes equally many steps, whatever names the server chooses.
///
/// # Errors
///
/// Only an allocation failure.
pub(crate) fn names_of(alloc: Global, refs: &[Ref]) -> Result<BTreeSet<&[u8]>, AllocError>
    ensures { IfOk result (HasNames refs.now) }
{
    let mut names = BTreeSet::new(alloc);
    'refs: for found in refs {
        add_ref(&mut names, found)?;
    }
    Ok(names)
}

// Whether the full name that a rule makes of a short one is in the set.
fn has_made(
    alloc: Global,
    names: &BTreeSet<&[u8]>,
    rule: &(&[u8], &[u8]),
    short: &[u8],
) -> Result<bool, AllocError>
    ensures { IfOk result (λ found. found ≡ has_text names.now (joined short.now (rule_of rule.now))) }
{
    let name = joined(alloc, rule.0, short, rule.1)?;
    Ok(names.contains(name.as_bytes()))
}

// Whether one of the full names that rules make of a short one is in the set.
fn has_any_made(
    alloc: Global,
    names: &BTreeSet<&[u8]>,
    rules: &[(&[u8], &[u8])],
    short: &[u8],
) -> Result<bool, AllocError>
    ensures { IfOk result (λ found. found ≡ list_any (λ rule. has_text names.now (joined short.now (rule_of rule))) rules.now) }
{
    'rules: for rule in rules {
        if has_made(alloc, names, rule, short)? {
            return Ok(true);
        }
    }
    Ok(false)
}

/// Whether one of the full names that a short name may mean is in the set.
///
/// # Errors
///
/// Only an allocation failure.
#[tactic(auto, unfolding(gixp_refspec::specs::Matching::candidates))]
pub(crate) fn has_candidate(
    alloc: Global,
    names: &BTreeSet<&[u8]>,
    short: &[u8],
) -> Result<bool, AllocError>
    ensures { IfOk result (λ found. found ≡ list_any (has_text names.now) (candidates short.now)) }
{
    has_any_made(alloc, names, &RULES, short)
}
