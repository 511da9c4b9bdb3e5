//! A web server, by git's own program for HTTP (gitremote-helpers, "stateless-connect"). That
//! program has TLS, proxies, cookies, redirects and credentials. It carries requests and responses
//! of version 2. A server of another version gets git's commands by it (`relay`).
ghost use Rattle.std.specs.Prelude.{◌≡◌, true, Some, None, IfOk, IfErr, OnOk, IfSome, MatchResult};
ghost use Rattle.std.specs.Io.BufRead.{DropsThrough};
ghost use Rattle.std.specs.Io.KnownBytes.{Appends};
ghost use Rattle.gixp_remote_session.specs.WebServer.{without_end, reply_in, has_reply, IsMissingReply, carries, has_connected};
ghost use Rattle.gixp_remote_session.specs.WebServer.{option_sent, is_limited, family_line, options_sent, connect_sent, has_replied, have_replied, after_option, after_options, after_replies};
ghost use Rattle.gixp_remote_session.specs.declared.error.Error.TheVariants.{AlreadyReported};

use crate::error::Error;
use gixp_remote_rules::Family;
use std::alloc::Global;
use std::io::{BufRead, Write};

// A line without its line feed. If it has none, the program exited and reported the reason.
fn without_line_end(line: Vec<u8>) -> Result<Vec<u8>, Error>
    ensures { MatchResult result (λ front. without_end line.items ≡ Some front.items)
        (λ e. (e ≡ AlreadyReported) × (without_end line.items ≡ None)) }
{
    let mut line = line;
    match line.pop() {
        Some(b'\n') => Ok(line),
        _ => Err(Error::AlreadyReported),
    }
}

// Reads a line of the program, without its line feed.
fn read_reply<R: BufRead>(alloc: Global, from: &mut R) -> Result<Vec<u8>, Error>
    ensures line { IfOk result (λ line. IfSome (R.remaining from.old) (λ bytes. reply_in bytes ≡ Some line.items)) }
    ensures rest { OnOk result (DropsThrough (R.remaining from.old) (R.remaining from.new) 10) }
    ensures missing { IfErr result (IsMissingReply has_reply (R.remaining from.old)) }
{
    let mut line = Vec::new(alloc);
    from.read_until(b'\n', &mut line)?;
    without_line_end(line)
}

// Writes a line, and reads the reply.
fn ask<R: BufRead, W: Write>(
    alloc: Global,
    from: &mut R,
    to: &mut W,
    line: &[u8],
) -> Result<Vec<u8>, Error>
    ensures sent { OnOk result (Appends (W.contents to.old) (W.contents to.new) line.now) }
    ensures line { IfOk result (λ answer. IfSome (R.remaining from.old) (λ bytes. reply_in bytes ≡ Some answer.items)) }
    ensures rest { OnOk result (DropsThrough (R.remaining from.old) (R.remaining from.new) 10) }
    ensures missing { IfErr result (IsMissingReply has_reply (R.remaining from.old)) }
{
    to.write_all(line)?;
    to.flush()?;
    read_reply(alloc, from)
}

// Sets an option, if `is_set`.
fn set_option<R: BufRead, W: Write>(
    alloc: Global,
    from: &mut R,
    to: &mut W,
    is_set: bool,
    line: &[u8],
) -> Result<(), Error>
    ensures sent { OnOk result (Appends (W.contents to.old) (W.contents to.new) (option_sent is_set line.now)) }
    ensures replied { OnOk result (IfSome (R.remaining from.old) (λ bytes. has_replied is_set bytes ≡ true)) }
    ensures rest { OnOk result (IfSome (R.remaining from.old) (λ bytes. R.remaining from.new ≡ Some (after_option is_set bytes))) }
    ensures missing { IfErr result (IsMissingReply (has_replied is_set) (R.remaining from.old)) }
{
    if is_set {
        ask(alloc, from, to, line)?;
    }
    Ok(())
}

fn is_limited(family: Family) -> bool
    ensures { result ≡ is_limited family }
{
    match family {
        Family::All => false,
        Family::Ipv4 | Family::Ipv6 => true,
    }
}

fn family_line(family: Family) -> &'static [u8]
    ensures { result.now ≡ family_line family }
{
    match family {
        Family::All => b"option family all\n",
        Family::Ipv4 => b"option family ipv4\n",
        Family::Ipv6 => b"option family ipv6\n",
    }
}

// Makes the program as quiet as git is, and limits its addresses.
fn set_options<R: BufRead, W: Write>(
    alloc: Global,
    from: &mut R,
    to: &mut W,
    is_quiet: bool,
    family: Family,
) -> Result<(), Error>
    ensures sent { OnOk result (Appends (W.contents to.old) (W.contents to.new) (options_sent is_quiet family)) }
    ensures replied { OnOk result (IfSome (R.remaining from.old) (λ bytes. have_replied is_quiet family bytes ≡ true)) }
    ensures rest { OnOk result (IfSome (R.remaining from.old) (λ bytes. R.remaining from.new ≡ Some (after_options is_quiet family bytes))) }
    ensures missing { IfErr result (IsMissingReply (have_replied is_quiet family) (R.remaining from.old)) }
{
    set_option(alloc, from, to, is_quiet, b"option verbosity 0\n")?;
    set_option(alloc, from, to, is_limited(family), family_line(family))?;
    Ok(())
}

/// Asks the program to carry requests to the server. It replies with an empty line if it does, and
/// with another line (`fallback`) if the server doesn't speak version 2. Returns whether it does.
pub(crate) fn connect_stateless<R: BufRead, W: Write>(
    alloc: Global,
    from: &mut R,
    to: &mut W,
    is_quiet: bool,
    family: Family,
) -> Result<bool, Error>
    ensures carries { IfOk result (λ is_carried. IfSome (R.remaining from.old) (λ bytes. carries is_quiet family bytes ≡ Some is_carried)) }
    ensures sent { OnOk result (Appends (W.contents to.old) (W.contents to.new) (connect_sent is_quiet family)) }
    ensures rest { OnOk result (IfSome (R.remaining from.old) (λ bytes. R.remaining from.new ≡ Some (after_replies is_quiet family bytes))) }
    ensures missing { IfErr result (IsMissingReply (has_connected is_quiet family) (R.remaining from.old)) }
{
    set_options(alloc, from, to, is_quiet, family)?;
    let line = ask(alloc, from, to, b"stateless-connect git-upload-pack\n")?;
    Ok(line.is_empty())
}
