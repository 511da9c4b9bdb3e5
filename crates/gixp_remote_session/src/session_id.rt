//! The session id, which a server may log, in git's form (git-config, "transfer.advertiseSID").
use crate::error::Error;
use crate::setup::variable;
use bstr::ByteSlice;
use gixp_remote_rules::{Settings, is_true};
use jiff::Timestamp;
use sha1::Sha1;
use std::alloc::Global;
use std::{fs, process};

// The file with the host name. A line feed ends it.
const HOST_NAME: &str = "/proc/sys/kernel/hostname";

// The part for the host: the first digits of the SHA-1 of its name.
fn host_part(rt: &HostRuntime) -> Result<String, Error> {
    let alloc = rt.alloc();
    let Ok(line) = fs::read(rt, HOST_NAME) else {
        return Ok(String::from_str(alloc, "Localhost")?);
    };
    let name = line.strip_suffix(b"\n").unwrap_or(&line);
    let [a, b, c, d, ..] = Sha1::digest(name);
    Ok(format!(in alloc; "H{a:02x}{b:02x}{c:02x}{d:02x}")?)
}

// The time in UTC with microseconds, the host, and the id of this process.
fn own_part(rt: &HostRuntime) -> Result<String, Error> {
    let alloc = rt.alloc();
    let unread = Error::Other("the clock can't be read");
    let Ok(now) = Timestamp::now(rt) else {
        return Err(unread);
    };
    let Ok(time) = now.strftime(alloc, "%Y%m%dT%H%M%S.%6fZ") else {
        return Err(unread);
    };
    let host = host_part(rt)?;
    let number = process::id(rt.process());
    Ok(format!(in alloc; "{time}-{host}-P{number:08x}")?)
}

// Whether the user has the id sent.
fn is_wanted(alloc: Global, settings: &Settings) -> Result<bool, Error> {
    let Some(chosen) = settings.last(b"transfer.advertisesid") else {
        return Ok(false);
    };
    match is_true(chosen) {
        Some(is_wanted) => Ok(is_wanted),
        None => Err(Error::with_text(alloc, "bad boolean value of", chosen.name.as_bytes())),
    }
}

/// The session id, if the user has it sent. It follows the session id of the git process that
/// started the helper, if that has one. An id that isn't UTF-8 isn't sent.
pub(crate) fn session_id(rt: &HostRuntime, settings: &Settings) -> Result<Option<String>, Error> {
    let alloc = rt.alloc();
    if !is_wanted(alloc, settings)? {
        return Ok(None);
    }
    let own = own_part(rt)?;
    let Some(parent) = variable(rt, "GIT_TRACE2_PARENT_SID")? else {
        return Ok(Some(own));
    };
    match parent.as_bytes().to_str() {
        Ok(parent) => {
            if parent.is_empty() {
                Ok(Some(own))
            } else {
                Ok(Some(format!(in alloc; "{parent}/{own}")?))
            }
        }
        Err(_) => Ok(None),
    }
}
