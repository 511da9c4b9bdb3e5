//! Selects mappings by whether their local name is safe.
ghost use Rattle.std.specs.Prelude.{◌≡◌, [], ◌∷◌, ◌++◌, filter, IfOk, OnOk};
ghost use Rattle.gixp_refmap.specs.SafeNames.{is_of_safety, pointed_to};

use crate::refmap::mapping::Mapping;
use std::alloc::{AllocError, Global};

// Appends the mapping, if its local name is safe or, with `false`, if it isn't.
fn push_of_safety<'a>(
    found: &mut Vec<&'a Mapping>,
    mapping: &'a Mapping,
    is_safe: bool,
) -> Result<(), AllocError>
    ensures { OnOk result (pointed_to found.new.items ≡ pointed_to found.old.items ++ filter (is_of_safety is_safe) (mapping.now ∷ [])) }
{
    if mapping.has_safe_local_name() == is_safe {
        found.push(mapping)?;
    }
    Ok(())
}

// The mappings whose local name is safe or, with `false`, the others.
pub(crate) fn of_safety<'a>(
    alloc: Global,
    mappings: &'a [Mapping],
    is_safe: bool,
) -> Result<Vec<&'a Mapping>, AllocError>
    ensures { IfOk result (λ found. pointed_to found.items ≡ filter (is_of_safety is_safe) mappings.now) }
{
    let mut found = Vec::new(alloc);
    'mappings: for mapping in mappings {
        push_of_safety(&mut found, mapping, is_safe)?;
    }
    Ok(found)
}
