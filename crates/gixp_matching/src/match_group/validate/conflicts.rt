//! Local names with two sources.
ghost use Rattle.std.specs.Prelude.{◌≡◌, ◌<◌, ◌∷◌, ◌++◌, [], not, filter, map, length, IfOk, OnOk};
ghost use Rattle.std.specs.List.{list_any};
ghost use Rattle.bstr.specs.Owned.{bstring_bytes};
ghost use Rattle.gixp_matching.specs.Found.{text_in, found, found_over, found_among, found_first, found_in_groups, AddsConflicts};
ghost use Rattle.gixp_matching.specs.Groups.{lent, grouped};
ghost use Rattle.gixp_matching.specs.Mappings.{source_eq};
ghost use Rattle.gixp_matching.specs.MatchGroup.{values};
ghost use Rattle.gixp_refspec.specs.Spec.{text_of};
ghost use Rattle.gixp_matching.specs.Validate.{sources_in, conflict_of, conflicts_in};
ghost use Rattle.gixp_matching.specs.Validation.{differ, has_local, of_local, conflicts};

use crate::match_group::SourceRef;
use crate::match_group::key::AsMapping;
use crate::match_group::validate::Issue;
use crate::match_group::validate::apart::are_apart;
use crate::match_group::validate::groups::{Group, groups_of, mappings_of, table_of};
use crate::match_group::validate::order::sort_by_name;
use bstr::BString;
use gixp_refspec::spec::RefSpecRef;
use std::alloc::{AllocError, Global};

// Whether a mapping has another source than the first.
fn any_other<M: AsMapping>(first: &M, rest: &[&M]) -> bool
    ensures { result ≡ list_any (λ other. not (source_eq (M.mapped first.now).source (M.mapped other.now).source)) rest.now }
{
    let source = first.key().0;
    rest.iter().any(|other| source != other.key().0)
}

// Whether two of the mappings have different sources: then one differs from the first.
fn differ<M: AsMapping>(group: &[&M]) -> bool
    ensures { result ≡ differ (lent M.mapped group.now) }
{
    match group.split_first() {
        None => false,
        Some((first, rest)) => any_other(*first, rest),
    }
}

fn texts_of(alloc: Global, specs: &[RefSpecRef<'_>]) -> Result<Vec<BString>, AllocError>
    ensures { IfOk result (λ v. map bstring_bytes v.items ≡ map text_of (values specs.now)) }
{
    let mut found = Vec::with_capacity(alloc, specs.len())?;
    'specs: for spec in specs {
        found.push(spec.to_bstring(alloc)?)?;
    }
    Ok(found)
}

fn text_of<M: AsMapping>(
    alloc: Global,
    texts: &[BString],
    mapping: &M,
) -> Result<BString, AllocError>
    ensures { IfOk result (λ text. bstring_bytes text ≡ text_in (map bstring_bytes texts.now) (M.mapped mapping.now)) }
{
    match texts.get(mapping.spec_index()) {
        None => BString::from_slice(alloc, b""),
        Some(text) => text.clone(),
    }
}

fn push_text<M: AsMapping>(
    alloc: Global,
    texts: &[BString],
    mapping: &M,
    found: &mut Vec<BString>,
) -> Result<(), AllocError>
    ensures { OnOk result (map bstring_bytes found.new.items ≡ map bstring_bytes found.old.items
        ++ text_in (map bstring_bytes texts.now) (M.mapped mapping.now) ∷ []) }
{
    found.push(text_of(alloc, texts, mapping)?)?;
    Ok(())
}

fn spec_texts<M: AsMapping>(
    alloc: Global,
    texts: &[BString],
    group: &[&M],
) -> Result<Vec<BString>, AllocError>
    ensures { IfOk result (λ v. map bstring_bytes v.items ≡ map (text_in (map bstring_bytes texts.now)) (lent M.mapped group.now)) }
{
    let mut found = Vec::with_capacity(alloc, group.len())?;
    'group: for mapping in group {
        push_text(alloc, texts, *mapping, &mut found)?;
    }
    Ok(found)
}

fn push_source<M: AsMapping>(mapping: &M, sources: &mut Vec<SourceRef>) -> Result<(), AllocError>
    ensures { OnOk result (sources_in sources.new ≡ sources_in sources.old ++ (M.mapped mapping.now).source ∷ []) }
{
    sources.push(mapping.source()?)?;
    Ok(())
}

fn sources<M: AsMapping>(alloc: Global, group: &[&M]) -> Result<Vec<SourceRef>, AllocError>
    ensures { IfOk result (λ v. sources_in v ≡ map (λ m. m.source) (lent M.mapped group.now)) }
{
    let mut sources = Vec::with_capacity(alloc, group.len())?;
    'group: for mapping in group {
        push_source(*mapping, &mut sources)?;
    }
    Ok(sources)
}

fn conflict<M: AsMapping>(
    alloc: Global,
    texts: &[BString],
    name: &[u8],
    group: &[&M],
) -> Result<Issue, AllocError>
    ensures { IfOk result (λ issue. conflict_of issue ≡ found (map bstring_bytes texts.now) name.now (lent M.mapped group.now)) }
{
    let destination_full_ref_name = BString::from_slice(alloc, name)?;
    let specs = spec_texts(alloc, texts, group)?;
    let sources = sources(alloc, group)?;
    Ok(Issue::Conflict {
        destination_full_ref_name,
        specs,
        sources,
    })
}

// Appends the conflict over a local name, if there is one.
fn push_conflict<M: AsMapping>(
    alloc: Global,
    texts: &[BString],
    name: &[u8],
    group: &[&M],
    issues: &mut Vec<Issue>,
) -> Result<(), AllocError>
    ensures { OnOk result (conflicts_in issues.new ≡ conflicts_in issues.old
        ++ found_over (map bstring_bytes texts.now) name.now (lent M.mapped group.now)) }
{
    if differ(group) {
        issues.push(conflict(alloc, texts, name, group)?)?;
    }
    Ok(())
}

// Whether the mapping has this local name.
fn has_local<M: AsMapping>(mapping: &M, name: &[u8]) -> bool
    ensures { result ≡ has_local name.now (M.mapped mapping.now) }
{
    match mapping.key().1 {
        None => false,
        Some(local) => local.bytes == name,
    }
}

// Appends a mapping, if it has this local name.
fn push_with<'a, M: AsMapping>(
    mapping: &'a M,
    name: &[u8],
    own: &mut Vec<&'a M>,
) -> Result<(), AllocError>
    ensures { OnOk result (lent M.mapped own.new.items ≡ lent M.mapped own.old.items
        ++ filter (has_local name.now) (M.mapped mapping.now ∷ [])) }
{
    if has_local(mapping, name) {
        own.push(mapping)?;
    }
    Ok(())
}

// The mappings that have this local name.
fn mappings_with<'a, M: AsMapping>(
    alloc: Global,
    mappings: &[&'a M],
    name: &[u8],
) -> Result<Vec<&'a M>, AllocError>
    ensures { IfOk result (λ own. lent M.mapped own.items ≡ of_local name.now (lent M.mapped mappings.now)) }
{
    let mut own = Vec::with_capacity(alloc, mappings.len())?;
    'mappings: for mapping in mappings {
        push_with(*mapping, name, &mut own)?;
    }
    Ok(own)
}

// Whether one of the mappings has this local name.
fn is_among<M: AsMapping>(mappings: &[&M], name: &[u8]) -> bool
    ensures { result ≡ list_any (λ m. has_local name.now (M.mapped m.now)) mappings.now }
{
    mappings.iter().any(|mapping| has_local(*mapping, name))
}

// Appends the conflict over the local name of a mapping, unless an earlier mapping has that name.
fn push_first<M: AsMapping>(
    alloc: Global,
    texts: &[BString],
    mappings: &[&M],
    place: usize,
    issues: &mut Vec<Issue>,
) -> Result<(), AllocError>
    requires { place < length mappings.now }
    ensures { OnOk result (AddsConflicts (found_first (map bstring_bytes texts.now) (lent M.mapped mappings.now) place)
        (conflicts_in issues.old) (conflicts_in issues.new)) }
{
    if let Some(name) = mappings[place].key().1 {
        if !is_among(&mappings[..place], name.bytes) {
            let own = mappings_with(alloc, mappings, name.bytes)?;
            push_conflict(alloc, texts, name.bytes, &own, issues)?;
        }
    }
    Ok(())
}

// Appends the conflicts over the local names of mappings. These names have one hash, so there are hardly ever two.
fn push_conflicts<M: AsMapping>(
    alloc: Global,
    texts: &[BString],
    mappings: &[&M],
    issues: &mut Vec<Issue>,
) -> Result<(), AllocError>
    ensures { OnOk result (AddsConflicts (found_among (map bstring_bytes texts.now) (lent M.mapped mappings.now))
        (conflicts_in issues.old) (conflicts_in issues.new)) }
{
    'mappings: for place in 0..mappings.len() {
        push_first(alloc, texts, mappings, place, issues)?;
    }
    Ok(())
}

// The conflicts over the local names of groups, whose mappings follow one another.
fn conflicts_of_groups<M: AsMapping>(
    alloc: Global,
    texts: &[BString],
    groups: &[Group<'_, '_, M>],
    mappings: &[&M],
) -> Result<Vec<Issue>, AllocError>
    requires { mappings.now ≡ grouped groups.now }
    ensures { IfOk result (λ v. AddsConflicts (found_in_groups M.mapped (map bstring_bytes texts.now) groups.now) [] (conflicts_in v)) }
{
    let mut issues = Vec::with_capacity(alloc, groups.len())?;
    let mut start = 0;
    'groups: for group in groups {
        let end = start + group.rows.len();
        push_conflicts(alloc, texts, &mappings[start..end], &mut issues)?;
        start = end;
    }
    Ok(issues)
}

// The conflicts, by the mappings of each hash that several local names have. The mappings are listed group by group,
// since the rows of one group are far from the next group's.
fn conflicts_by_number<M: AsMapping>(
    alloc: Global,
    specs: &[RefSpecRef<'_>],
    mappings: &[M],
) -> Result<Vec<Issue>, AllocError>
    ensures { IfOk result (λ v. conflicts_in v ≡ conflicts (values specs.now) (map M.mapped mappings.now)) }
{
    let texts = texts_of(alloc, specs)?;
    let rows = table_of(alloc, mappings)?;
    let groups = groups_of(alloc, &rows)?;
    let grouped = mappings_of(alloc, &groups)?;
    let mut issues = conflicts_of_groups(alloc, &texts, &groups, &grouped)?;
    sort_by_name(&mut issues)?;
    Ok(issues)
}

/// The conflicts, sorted by the bytes of the local names. Mostly all local names differ. Checking that is faster than
/// finding the mappings of each name.
pub(crate) fn conflicts_of<M: AsMapping>(
    alloc: Global,
    specs: &[RefSpecRef<'_>],
    mappings: &[M],
) -> Result<Vec<Issue>, AllocError>
    ensures { IfOk result (λ v. conflicts_in v ≡ conflicts (values specs.now) (map M.mapped mappings.now)) }
{
    if are_apart(alloc, mappings)? {
        return Ok(Vec::new(alloc));
    }
    conflicts_by_number(alloc, specs, mappings)
}
