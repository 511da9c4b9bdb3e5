//! A URL as git reads it.
//!
//! The bytes are the URL. The line has the scheme, the host in quotes, the port or `NONE`, the path in quotes, and `password` where
//! the URL has one; or `refused`.
use crate::report::Report;
use crate::rows::Row;
use gixp_url::{Address, Scheme, redacted};
use std::alloc::{AllocError, Global};

// git separates host and port for ssh alone.
fn report_address(address: &Address, report: &mut Report) {
    let is_ssh = address.scheme == Scheme::Ssh;
    report.word(address.scheme.name());
    report.word(" ");
    if is_ssh {
        report.quote(address.host.as_bytes());
    } else {
        report.quote(address.authority.as_bytes());
    }
    report.word(" ");
    match &address.port {
        Some(port) if is_ssh => report.letters(port.as_bytes()),
        _ => report.word("NONE"),
    }
    report.word(" ");
    report.quote(address.path.as_bytes());
}

/// What a URL names, and whether it has a password.
pub(crate) fn report_url(
    alloc: Global,
    row: &Row<'_>,
    report: &mut Report,
) -> Result<(), AllocError> {
    match Address::read(alloc, row.payload) {
        Ok(address) => {
            report_address(&address, report);
            if redacted(alloc, row.payload)?.is_some() {
                report.word(" password");
            }
        }
        Err(_) => report.word("refused"),
    }
    Ok(())
}
