//! Features and arguments: those that a client requests if a server has some capabilities, and the validation of both.
use crate::report::Report;
use crate::values;
use bstr::BString;
use gixp_capabilities::Capabilities;
use gixp_packetline::Protocol;
use gixp_requests::Command;
use gixp_requests::command::{CommandTable, Feature, validate_argument_prefixes};
use gixp_response::fetch::Response;
use std::alloc::{AllocError, Global};

fn report_features(features: &[Feature], report: &mut Report) {
    for (name, value) in features {
        report.word(name);
        if value.is_some() {
            report.word("=");
        }
        report.word(",");
    }
    report.word(" ");
}

fn report_validation(outcome: Result<(), validate_argument_prefixes::Error>, report: &mut Report) {
    match outcome {
        Ok(()) => report.word("valid"),
        Err(e) => values::validation_error(report, &e),
    }
    report.word(" ");
}

/// The feature of this name: one of git's command table, `agent`, or `no-such`, which no table has.
pub(crate) fn name_of(text: &[u8]) -> Option<&'static str> {
    let table = CommandTable::git();
    for (name, _unless) in table.v1_fetch {
        if name.as_bytes() == text {
            return Some(*name);
        }
    }
    for name in table.v2_fetch {
        if name.as_bytes() == text {
            return Some(*name);
        }
    }
    for name in ["agent", "no-such"] {
        if name.as_bytes() == text {
            return Some(name);
        }
    }
    None
}

// The default features for one version, whether they are sufficient, and the validation of the arguments and of an empty list.
fn report_version(
    alloc: Global,
    command: Command,
    version: Protocol,
    found: &Capabilities,
    arguments: &[BString],
    given: &[Feature],
    report: &mut Report,
) -> Result<(), AllocError> {
    let table = CommandTable::git();
    let features = table.default_features(alloc, command, version, found)?;
    report_features(&features, report);
    report.word(
        match Response::check_required_features(version, &features) {
            Ok(()) => "has ",
            Err(_) => "lacks ",
        },
    );
    let outcome = table.validate_argument_prefixes(
        alloc, command, version, found, arguments, given,
    );
    report_validation(outcome, report);
    let outcome = table.validate_argument_prefixes(alloc, command, version, found, &[], given);
    report_validation(outcome, report);
    Ok(())
}

/// The default features and the validation for each command and version, and whether the given features are sufficient.
pub(crate) fn report_offers(
    alloc: Global,
    given: &[Feature],
    found: &Capabilities,
    arguments: &[BString],
    report: &mut Report,
) -> Result<(), AllocError> {
    let versions = [Protocol::V0, Protocol::V1, Protocol::V2];
    for command in [Command::Fetch, Command::LsRefs] {
        for version in versions {
            report_version(alloc, command, version, found, arguments, given, report)?;
        }
        let lines = CommandTable::git().initial_v2_arguments(alloc, command, given)?;
        for line in &lines {
            report.quote(line.as_bytes());
        }
        report.word(" ");
    }
    for version in versions {
        match Response::check_required_features(version, given) {
            Ok(()) => report.word("has "),
            Err(e) => values::response_error(report, &e),
        }
    }
    Ok(())
}
