//! Ref maps and their errors as text.
use crate::refspecs::{report_fix, report_issue};
use crate::report::Report;
use crate::values::{client_error, parse_error, reference, validation_error};
use gixp_refmap::refmap::{Mapping, Source, SpecIndex, init};
use gixp_refmap::{RefMap, ls_refs};

// The index of a refspec: after `e` among the explicit ones, `x` for the extra ones.
fn report_place(report: &mut Report, place: SpecIndex) {
    match place {
        SpecIndex::ExplicitInRemote(index) => {
            report.word("e");
            report.number(index as u64)
        }
        SpecIndex::Implicit(index) => {
            report.word("x");
            report.number(index as u64)
        }
    }
}

fn report_mapping(report: &mut Report, mapping: &Mapping) {
    report_place(report, mapping.spec_index);
    report.word(" ");
    match &mapping.remote {
        Source::ObjectId(id) => {
            report.word("id:");
            report.id(id);
            report.word(" ");
        }
        Source::Ref(found) => reference(report, found),
    }
    if let Some(local) = &mapping.local {
        report.word(">");
        report.quote(local.as_bytes());
        report.word(" ");
    }
}

/// Mappings, fixes, and whether something is missing.
pub(crate) fn report_map(report: &mut Report, map: &RefMap) {
    report.word("map ");
    for mapping in &map.mappings {
        report_mapping(report, mapping);
    }
    for fix in &map.fixes {
        report_fix(report, fix);
    }
    report.word(if map.is_missing_required_mapping() {
        "missing "
    } else {
        "whole "
    });
}

// The error of `ls-refs`.
fn list_error(report: &mut Report, e: &ls_refs::Error) {
    match e {
        ls_refs::Error::Io(_) => report.word("Io"),
        ls_refs::Error::Transport(e) => {
            report.word("Transport(");
            client_error(report, e);
            report.word(")")
        }
        ls_refs::Error::Parse(e) => {
            report.word("Parse(");
            parse_error(report, e);
            report.word(")")
        }
        ls_refs::Error::ArgumentValidation(e) => {
            report.word("ArgumentValidation(");
            validation_error(report, e);
            report.word(")")
        }
        ls_refs::Error::Memory => report.word("Memory"),
    }
}

/// The error of a ref map.
pub(crate) fn init_error(report: &mut Report, e: &init::Error) {
    match e {
        init::Error::UnknownObjectFormat { format } => {
            report.word("UnknownObjectFormat(");
            report.quote(format.as_bytes());
            report.word(")");
        }
        init::Error::MappingValidation(e) => {
            report.word("MappingValidation(");
            for issue in &e.issues {
                report_issue(report, issue);
            }
            report.word(")");
        }
        init::Error::ListRefs(e) => {
            report.word("ListRefs(");
            list_error(report, e);
            report.word(")");
        }
        init::Error::Memory => report.word("Memory"),
    }
    report.word(" ");
}
