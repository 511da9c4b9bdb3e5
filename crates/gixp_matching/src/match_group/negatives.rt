//! The negative refspecs of a group, prepared once and then compared with many names.
ghost use Rattle.std.specs.Prelude.{ℕ, List, ◌≡◌, ◌||◌, IfOk, OnOk, is_some};
ghost use Rattle.std.specs.List.{list_any};
ghost use Rattle.gixp_matching.specs.Mappings.{excludes, is_excluded};
ghost use Rattle.gixp_matching.specs.MatchGroup.{values};
ghost use Rattle.gixp_refspec.specs.Needle.{middle_with};
ghost use Rattle.gixp_refspec.specs.RefSpec.{value_of};
ghost use Rattle.gixp_matching.specs.Rows.{is_row_of, AreByName, is_any, IsPrepared};

use crate::match_group::rows::{Row, rows_named, sort_by_name};
use gixp_refspec::needle::Needle;
use gixp_refspec::spec::{RefSpecRef, is_negative};
use std::alloc::{AllocError, Global};

/// A group of refspecs with its negative refspecs prepared.
#[derive(Drop)]
pub(crate) struct Prepared<'s> {
    /// All refspecs of the group.
    pub(crate) specs: &'s [RefSpecRef<'s>],
    /// The exact names of negative refspecs, in byte order.
    pub(crate) names: Vec<Row<'s>>,
    /// The sources of the other negative refspecs.
    pub(crate) others: Vec<Needle<'s>>,
}

// Adds the source of a negative refspec.
fn push_negative<'s>(
    names: &mut Vec<Row<'s>>,
    others: &mut Vec<Needle<'s>>,
    spec: &RefSpecRef<'s>,
) -> Result<(), AllocError>
    ensures { OnOk result ((name : List ℕ) → is_any names.new.items others.new.items name
        ≡ (is_any names.old.items others.old.items name || excludes name (value_of spec.now))) }
{
    if !is_negative(spec.sign) {
        return Ok(());
    }
    let needle = Needle::new(spec.source);
    if let Needle::Exact(name) = needle {
        names.push(Row { name, place: 0 })?;
    } else {
        others.push(needle)?;
    }
    Ok(())
}

/// Prepares the negative refspecs.
pub(crate) fn prepare<'s>(
    alloc: Global,
    specs: &'s [RefSpecRef<'s>],
) -> Result<Prepared<'s>, AllocError>
    ensures specs { IfOk result (λ prepared. values prepared.specs.now ≡ values specs.now) }
    ensures prepared { IfOk result IsPrepared }
{
    let mut names = Vec::new(alloc);
    let mut others = Vec::new(alloc);
    'specs: for spec in specs {
        push_negative(&mut names, &mut others, spec)?;
    }
    sort_by_name(&mut names)?;
    Ok(Prepared {
        specs,
        names,
        others,
    })
}

// Whether the names contain this one.
fn has_name(names: &[Row<'_>], name: &[u8]) -> bool
    requires { AreByName names.now }
    ensures { result ≡ list_any (is_row_of name.now) names.now }
{
    !rows_named(names, name).is_empty()
}

// Whether a needle matches the name.
fn has_match(needles: &[Needle<'_>], name: &[u8]) -> bool
    ensures { result ≡ list_any (λ needle. is_some (middle_with needle name.now)) needles.now }
{
    needles.iter().any(|needle| needle.middle(name).is_some())
}

/// Whether a negative refspec matches the name.
pub(crate) fn is_excluded(prepared: &Prepared<'_>, name: &[u8]) -> bool
    requires { IsPrepared prepared.now }
    ensures { result ≡ is_excluded (values prepared.now.specs.now) name.now }
{
    has_name(&prepared.names, name) || has_match(&prepared.others, name)
}
