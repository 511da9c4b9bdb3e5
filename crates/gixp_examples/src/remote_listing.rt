//! `ls-remote`: the refs of a server over two streams.
ghost use Rattle.std.specs.Prelude.{◌≡◌, ◌++◌, IfOk, OnOk};
ghost use Rattle.gixp_examples.specs.RemoteListing.{listed_line, listed_lines, remote_listing};

use anyhow::Result;
use gix_protocol::ObjectId;
use gix_protocol::client::{Session, Silent, over_streams};
use gix_protocol::handshake::Ref;
use std::alloc::{AllocError, Global};
use std::io::{Read, Write};

fn add_line(text: &mut Vec<u8>, id: &ObjectId, name: &[u8], suffix: &[u8]) -> Result<(), AllocError>
    ensures { OnOk result (text.new.items ≡ text.old.items ++ listed_line id.now name.now suffix.now) }
{
    text.extend_from_slice(&id.to_hex())?;
    text.push(b'\t')?;
    text.extend_from_slice(name)?;
    text.extend_from_slice(suffix)?;
    text.push(b'\n')?;
    Ok(())
}

fn add_lines(text: &mut Vec<u8>, found: &Ref) -> Result<(), AllocError>
    ensures { OnOk result (text.new.items ≡ text.old.items ++ listed_lines found.now) }
{
    let (name, target, peeled) = found.unpack();
    if let Some(id) = target {
        add_line(text, id, name.as_bytes(), b"")?;
    }
    if let Some(id) = peeled {
        add_line(text, id, name.as_bytes(), b"^{}")?;
    }
    Ok(())
}

/// The lines of `git ls-remote` for these refs: the id, a tab and the name. A tag has a second line for its peeled object. An
/// unborn ref has no line.
pub fn ls_remote(alloc: Global, refs: &[Ref]) -> Result<Vec<u8>, AllocError>
    ensures { IfOk result (λ text. text.items ≡ remote_listing refs.now) }
{
    let mut text = Vec::new(alloc);
    for found in refs {
        add_lines(&mut text, found)?;
    }
    Ok(text)
}

/// Writes the lines of `git ls-remote` for a server over two streams, such as the pipes of `git upload-pack PATH`, local or by
/// `ssh`. If the server fails, nothing is written. If the writer fails, it may have received some of the lines.
pub fn print_remote_refs<R: Read + Drop, W: Write + Drop, O: Write>(
    alloc: Global,
    from: R,
    to: W,
    output: &mut O,
) -> Result<()> {
    let transport = over_streams(alloc, from, to)?;
    let mut session = Session::open(alloc, transport, "first/1.0", Silent)?;
    let text = ls_remote(alloc, session.refs()?)?;
    session.close()?;
    output.write_all(&text)?;
    Ok(output.flush()?)
}
