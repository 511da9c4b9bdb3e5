//! The full names that refspecs may mean, which are looked up among the refs. The client chooses them, so they are few.
ghost use Rattle.std.specs.Prelude.{ℕ, List, ◌≡◌, ◌++◌, ◌||◌, true, map, IfOk, OnOk};
ghost use Rattle.std.specs.Str.{bytes_eq};
ghost use Rattle.bstr.specs.Owned.{bstring_bytes};
ghost use Rattle.gixp_refspec.specs.RefSpec.{value_of};
ghost use Rattle.gixp_refspec.specs.Texts.{texts};
ghost use Rattle.gixp_matching.specs.MatchGroup.{values};
ghost use Rattle.gixp_matching.specs.Sought.{sought_by, sought, is_among, has_key, has_name, has_tail, HasTails};
ghost use Rattle.gixp_matching.specs.Digest.{tail};

use crate::match_group::digest::tail;
use bstr::BString;
use gixp_refspec::spec::{RefSpecRef, stars};
use std::alloc::{AllocError, Global};
use std::collections::HashSet;

// Appends the full names that a positive refspec may mean. A pattern has none.
fn push_names(
    alloc: Global,
    spec: &RefSpecRef<'_>,
    names: &mut Vec<BString>,
) -> Result<(), AllocError>
    ensures { OnOk result (texts names.new ≡ texts names.old ++ sought_by (value_of spec.now)) }
{
    if stars(spec.source) > 0 {
        return Ok(());
    }
    spec.expand_prefixes(alloc, names)?;
    Ok(())
}

/// The full names that positive refspecs may mean.
pub(crate) fn sought_names(
    alloc: Global,
    specs: &[RefSpecRef<'_>],
) -> Result<Vec<BString>, AllocError>
    ensures { IfOk result (λ names. texts names ≡ sought (values specs.now)) }
{
    let mut names = Vec::new(alloc);
    'specs: for spec in specs {
        push_names(alloc, spec, &mut names)?;
    }
    Ok(names)
}

/// Names, and the last bytes of each. The last bytes tell most other names from these faster.
#[derive(Drop)]
pub(crate) struct NameSet<'n> {
    names: HashSet<&'n [u8]>,
    tails: HashSet<u64>,
}

impl NameSet<'_> {
    /// Whether the set contains the name.
    pub(crate) fn contains(&self, name: &[u8]) -> bool
        requires { HasTails self.now }
        ensures { result ≡ has_name self.now name.now }
    {
        if !self.tails.contains(&tail(name)) {
            return false;
        }
        self.names.contains(name)
    }
}

fn add_name<'n>(set: &mut HashSet<&'n [u8]>, name: &'n BString) -> Result<(), AllocError>
    ensures { OnOk result ((text : List ℕ) → has_key set.new text ≡ (has_key set.old text || bytes_eq text (bstring_bytes name.now))) }
{
    set.insert(name.as_bytes())?;
    Ok(())
}

fn names_of(alloc: Global, names: &[BString]) -> Result<HashSet<&[u8]>, AllocError>
    ensures { IfOk result (λ set. (text : List ℕ) → has_key set text ≡ is_among (map bstring_bytes names.now) text) }
{
    let mut set = HashSet::new(alloc);
    'names: for name in names {
        add_name(&mut set, name)?;
    }
    Ok(set)
}

fn add_tail(set: &mut HashSet<u64>, name: &BString) -> Result<(), AllocError>
    ensures own { OnOk result (has_tail set.new (tail (bstring_bytes name.now)) ≡ true) }
    ensures others { OnOk result ((number : ℕ) → has_tail set.old number ≡ true → has_tail set.new number ≡ true) }
{
    set.insert(tail(name.as_bytes()))?;
    Ok(())
}

// The last eight bytes of each name.
fn tails_of(alloc: Global, names: &[BString]) -> Result<HashSet<u64>, AllocError>
    ensures { IfOk result (λ set. (text : List ℕ) → is_among (map bstring_bytes names.now) text ≡ true → has_tail set (tail text) ≡ true) }
{
    let mut set = HashSet::new(alloc);
    'names: for name in names {
        add_tail(&mut set, name)?;
    }
    Ok(set)
}

/// The names as a set. A server chooses none of them, so it can't make them collide.
pub(crate) fn set_of(alloc: Global, names: &[BString]) -> Result<NameSet<'_>, AllocError>
    ensures names { IfOk result (λ set. (text : List ℕ) → has_name set text ≡ is_among (map bstring_bytes names.now) text) }
    ensures tails { IfOk result HasTails }
{
    Ok(NameSet {
        names: names_of(alloc, names)?,
        tails: tails_of(alloc, names)?,
    })
}
