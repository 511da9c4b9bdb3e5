//! Refspecs: the parsing of texts and names, and the mappings of refs.
//!
//! The payload of mode `refspec` is a refspec, of `ref-name` a name, of `prefixes` refspecs separated by blanks, of `matches` the
//! same in a line, then the names of refs, one per line.
use crate::report::Report;
use crate::rows::{Row, cut_at_byte};
use bstr::{BStr, BString};
use gixp_hash::ObjectId;
use gixp_matching::match_group::validate::{Fix, Issue};
use gixp_matching::match_group::{Item, Mapping, MatchGroup, SourceRef};
use gixp_refspec::parse::{Operation, parse};
use gixp_refspec::{PartialName, RefSpecRef};
use std::alloc::{AllocError, Global};

/// The text of a refspec, or the error.
pub(crate) fn report_spec(
    alloc: Global,
    row: &Row<'_>,
    report: &mut Report,
) -> Result<(), AllocError> {
    match parse(BStr::new(row.payload), Operation::Fetch) {
        Ok(spec) => report.quote(spec.to_bstring(alloc)?.as_bytes()),
        Err(e) => report.debug(&e),
    }
    Ok(())
}

pub(crate) fn report_name(
    alloc: Global,
    row: &Row<'_>,
    report: &mut Report,
) -> Result<(), AllocError> {
    let name = BString::from_slice(alloc, row.payload)?;
    report.word(if PartialName::new(name).is_ok() {
        "valid"
    } else {
        "invalid"
    });
    Ok(())
}

// The refspecs of a line, without those that are invalid.
fn specs_of<'a>(alloc: Global, line: &'a [u8]) -> Result<Vec<RefSpecRef<'a>>, AllocError> {
    let mut specs = Vec::new(alloc);
    for word in line.split(|b| *b == b' ') {
        if let Ok(spec) = parse(BStr::new(word), Operation::Fetch) {
            specs.push(spec)?;
        }
    }
    Ok(specs)
}

// The refs with these names, all with one id.
fn items_of<'a>(
    alloc: Global,
    names: &'a [u8],
    id: &'a ObjectId,
) -> Result<Vec<Item<'a>>, AllocError> {
    let mut items = Vec::new(alloc);
    for name in names.split(|b| *b == b'\n') {
        items.push(Item {
            full_ref_name: BStr::new(name),
            target: id,
            object: None,
        })?;
    }
    Ok(items)
}

fn report_source(report: &mut Report, source: &SourceRef) {
    match source {
        SourceRef::FullName(name) => report.quote(name.as_bytes()),
        SourceRef::ObjectId(id) => report.id(id),
    }
}

fn report_mapping(report: &mut Report, mapping: &Mapping) {
    report_source(report, &mapping.lhs);
    if let Some(local) = &mapping.rhs {
        report.word(">");
        report.quote(local.as_bytes());
    }
    report.word(" ");
}

/// A local name that was removed from a mapping, and the refspec.
pub(crate) fn report_fix(report: &mut Report, fix: &Fix) {
    let Fix::MappingWithPartialDestinationRemoved { name, spec } = fix;
    report.word("fix ");
    report.quote(name.as_bytes());
    report.quote(spec.as_bytes());
    report.word(" ");
}

/// A local name with two sources, and the refspec and the source of each mapping.
pub(crate) fn report_issue(report: &mut Report, issue: &Issue) {
    let Issue::Conflict {
        destination_full_ref_name,
        specs,
        sources,
    } = issue;
    report.quote(destination_full_ref_name.as_bytes());
    report.word("<");
    for spec in specs {
        report.quote(spec.as_bytes());
    }
    report.word("<");
    for source in sources {
        report_source(report, source);
    }
    report.word(";");
}

fn report_mappings(report: &mut Report, mappings: &[Mapping], fixes: &[Fix]) {
    for mapping in mappings {
        report_mapping(report, mapping);
    }
    for fix in fixes {
        report_fix(report, fix);
    }
}

fn report_issues(report: &mut Report, issues: &[Issue]) {
    for issue in issues {
        report_issue(report, issue);
    }
}

/// The mappings and the fixes, or the conflicts.
pub(crate) fn report_matches(
    alloc: Global,
    row: &Row<'_>,
    report: &mut Report,
) -> Result<(), AllocError> {
    let (line, names) = cut_at_byte(row.payload, b'\n');
    let specs = specs_of(alloc, line)?;
    let id = ObjectId::null();
    let items = items_of(alloc, names, &id)?;
    let outcome = MatchGroup::from_fetch_specs(&specs).match_lhs(alloc, &items)?;
    match outcome.validated(alloc)? {
        Ok((outcome, fixes)) => report_mappings(report, &outcome.mappings, &fixes),
        Err(e) => report_issues(report, &e.issues),
    }
    Ok(())
}

/// The prefixes of the refspecs.
pub(crate) fn report_prefixes(
    alloc: Global,
    row: &Row<'_>,
    report: &mut Report,
) -> Result<(), AllocError> {
    let specs = specs_of(alloc, row.payload)?;
    let mut prefixes = Vec::new(alloc);
    for spec in &specs {
        spec.expand_prefixes(alloc, &mut prefixes)?;
    }
    for prefix in &prefixes {
        report.quote(prefix.as_bytes());
    }
    Ok(())
}
