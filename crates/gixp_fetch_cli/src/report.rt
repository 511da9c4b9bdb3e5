//! The report of a fetch, and the list of a server's refs.
ghost use Rattle.std.specs.Prelude.{◌≡◌, ◌++◌, IfOk, OnOk, flat_map};
ghost use Rattle.gixp_refs.specs.ParseError.{object_of};
ghost use Rattle.gixp_fetch_cli.specs.Changes.{change_in};
ghost use Rattle.gixp_fetch_cli.specs.Report.{change_word, mapping_word, mapping_line, mapping_lines, fix_line, head_line, default_of_ref, pack_line};
ghost use Rattle.gixp_fetch_cli.specs.Report.{fetch_report, id_line, peeled_line, target_line, tagged_lines, ref_lines};

use crate::change::{Change, change_in};
use gixp_hash::ObjectId;
use gixp_matching::match_group::validate::Fix;
use gixp_pack::PackSummary;
use gixp_refmap::RefMap;
use gixp_refmap::mapping_names::{local_name, remote_name};
use gixp_refmap::refmap::{Mapping, SpecIndex};
use gixp_refs::handshake::Ref;
use gixp_utils::append;
use std::alloc::{AllocError, Global};

// The first word of a mapping's line: the change of its local ref, where it is known.
#[inline(always)]
fn change_word(change: Option<Change>) -> &'static [u8]
    ensures { result.now ≡ change_word change }
{
    match change {
        Some(Change::New) => b"new ",
        Some(Change::FastForward) => b"fast-forward ",
        Some(Change::Forced) => b"forced ",
        Some(Change::Same) => b"same ",
        Some(Change::Refused) => b"refused ",
        None => b"",
    }
}

// The next word: `map` for a refspec, `tag` for a tag that is fetched with the refspecs.
#[inline(always)]
fn mapping_word(index: &SpecIndex) -> &[u8]
    ensures { result.now ≡ mapping_word index.now }
{
    match index {
        SpecIndex::ExplicitInRemote(_) => b"map ",
        SpecIndex::Implicit(_) => b"tag ",
    }
}

fn append_change(text: &mut Vec<u8>, change: Option<Change>) -> Result<(), AllocError>
    ensures { OnOk result (text.new.items ≡ text.old.items ++ change_word change) }
{
    text.extend_from_slice(change_word(change))
}

fn append_mapping(
    text: &mut Vec<u8>,
    change: Option<Change>,
    mapping: &Mapping,
) -> Result<(), AllocError>
    ensures { OnOk result (text.new.items ≡ text.old.items ++ mapping_line change mapping.now) }
{
    append_change(text, change)?;
    let word = mapping_word(&mapping.spec_index);
    let name = remote_name(&mapping.remote);
    let local = local_name(&mapping.local);
    match mapping.remote.as_id() {
        Some(id) => append(text, &[word, &id.to_hex(), b" ", name, b" ", local, b"\n"]),
        None => append(text, &[word, b"unborn", b" ", name, b" ", local, b"\n"]),
    }
}

fn append_mappings(
    text: &mut Vec<u8>,
    changes: &[Option<Change>],
    mappings: &[Mapping],
) -> Result<(), AllocError>
    ensures { OnOk result (text.new.items ≡ text.old.items ++ mapping_lines changes.now mappings.now) }
{
    'mappings: for (index, mapping) in mappings.iter().enumerate() {
        append_mapping(text, change_in(changes, index), mapping)?;
    }
    Ok(())
}

// The line of a mapping that was removed.
fn append_fix(text: &mut Vec<u8>, fix: &Fix) -> Result<(), AllocError>
    ensures { OnOk result (text.new.items ≡ text.old.items ++ fix_line fix.now) }
{
    let Fix::MappingWithPartialDestinationRemoved { name, spec } = fix;
    append(
        text,
        &[b"fix ", name.as_bytes(), b" ", spec.as_bytes(), b"\n"],
    )
}

fn append_fixes(text: &mut Vec<u8>, fixes: &[Fix]) -> Result<(), AllocError>
    ensures { OnOk result (text.new.items ≡ text.old.items ++ flat_map fix_line fixes.now) }
{
    for fix in fixes {
        append_fix(text, fix)?;
    }
    Ok(())
}

// The line `default TARGET`, for `HEAD` alone.
fn append_head(text: &mut Vec<u8>, name: &[u8], target: &[u8]) -> Result<(), AllocError>
    ensures { OnOk result (text.new.items ≡ text.old.items ++ head_line name.now target.now) }
{
    if name == b"HEAD".as_slice() {
        append(text, &[b"default ", target, b"\n"])
    } else {
        Ok(())
    }
}

fn append_default(text: &mut Vec<u8>, found: &Ref) -> Result<(), AllocError>
    ensures { OnOk result (text.new.items ≡ text.old.items ++ default_of_ref found.now) }
{
    match found {
        Ref::Symbolic {
            full_ref_name,
            target,
            ..
        } => append_head(text, full_ref_name.as_bytes(), target.as_bytes()),
        Ref::Unborn {
            full_ref_name,
            target,
        } => append_head(text, full_ref_name.as_bytes(), target.as_bytes()),
        Ref::Peeled { .. } => Ok(()),
        Ref::Direct { .. } => Ok(()),
    }
}

fn append_defaults(text: &mut Vec<u8>, refs: &[Ref]) -> Result<(), AllocError>
    ensures { OnOk result (text.new.items ≡ text.old.items ++ flat_map default_of_ref refs.now) }
{
    for found in refs {
        append_default(text, found)?;
    }
    Ok(())
}

// The line of the pack, or `nothing`.
fn append_pack(
    alloc: Global,
    text: &mut Vec<u8>,
    pack: Option<PackSummary>,
) -> Result<(), AllocError>
    ensures { OnOk result (text.new.items ≡ text.old.items ++ pack_line pack) }
{
    let Some(pack) = pack else {
        return append(text, &[b"nothing\n"]);
    };
    let bytes = pack.bytes.to_string(alloc)?;
    let objects = pack.objects.to_string(alloc)?;
    append(
        text,
        &[b"pack ", bytes.as_bytes(), b" ", objects.as_bytes(), b"\n"],
    )
}

/// The report of a fetch: the mappings with the changes of their local refs, the mappings that were removed, the target of the
/// server's `HEAD`, and the pack.
pub fn report(
    alloc: Global,
    map: &RefMap,
    changes: &[Option<Change>],
    pack: Option<PackSummary>,
) -> Result<Vec<u8>, AllocError>
    ensures { IfOk result (λ text. text.items ≡ fetch_report map.now changes.now pack) }
{
    let mut text = Vec::new(alloc);
    append_mappings(&mut text, changes, &map.mappings)?;
    append_fixes(&mut text, &map.fixes)?;
    append_defaults(&mut text, &map.remote_refs)?;
    append_pack(alloc, &mut text, pack)?;
    Ok(text)
}

fn append_id(text: &mut Vec<u8>, id: &ObjectId, name: &[u8]) -> Result<(), AllocError>
    ensures { OnOk result (text.new.items ≡ text.old.items ++ id_line id.now.bytes name.now) }
{
    append(text, &[&id.to_hex(), b"\t", name, b"\n"])
}

// The line of a tag's object.
fn append_peeled(text: &mut Vec<u8>, id: &ObjectId, name: &[u8]) -> Result<(), AllocError>
    ensures { OnOk result (text.new.items ≡ text.old.items ++ peeled_line id.now.bytes name.now) }
{
    append(text, &[&id.to_hex(), b"\t", name, b"^{}\n"])
}

// The lines of a tag and its object, or of an object alone.
fn append_tagged(
    text: &mut Vec<u8>,
    name: &[u8],
    tag: &Option<ObjectId>,
    object: &ObjectId,
) -> Result<(), AllocError>
    ensures { OnOk result (text.new.items ≡ text.old.items ++ tagged_lines name.now (object_of tag.now) object.now.bytes) }
{
    match tag {
        Some(tag) => append_both(text, name, tag, object),
        None => append_id(text, object, name),
    }
}

fn append_both(
    text: &mut Vec<u8>,
    name: &[u8],
    tag: &ObjectId,
    object: &ObjectId,
) -> Result<(), AllocError>
    ensures { OnOk result (text.new.items ≡ text.old.items ++ (id_line tag.now.bytes name.now ++ peeled_line object.now.bytes name.now)) }
{
    append_id(text, tag, name)?;
    append_peeled(text, object, name)
}

fn append_target(text: &mut Vec<u8>, name: &[u8], target: &[u8]) -> Result<(), AllocError>
    ensures { OnOk result (text.new.items ≡ text.old.items ++ target_line name.now target.now) }
{
    append(text, &[b"ref: ", target, b"\t", name, b"\n"])
}

fn append_symbolic(
    text: &mut Vec<u8>,
    name: &[u8],
    target: &[u8],
    tag: &Option<ObjectId>,
    object: &ObjectId,
) -> Result<(), AllocError>
    ensures { OnOk result (text.new.items ≡ text.old.items
        ++ (target_line name.now target.now ++ tagged_lines name.now (object_of tag.now) object.now.bytes)) }
{
    append_target(text, name, target)?;
    append_tagged(text, name, tag, object)
}

fn append_ref(text: &mut Vec<u8>, found: &Ref) -> Result<(), AllocError>
    ensures { OnOk result (text.new.items ≡ text.old.items ++ ref_lines found.now) }
{
    match found {
        Ref::Peeled {
            full_ref_name,
            tag,
            object,
        } => append_both(text, full_ref_name.as_bytes(), tag, object),
        Ref::Direct {
            full_ref_name,
            object,
        } => append_id(text, object, full_ref_name.as_bytes()),
        Ref::Symbolic {
            full_ref_name,
            target,
            tag,
            object,
        } => append_symbolic(
            text,
            full_ref_name.as_bytes(),
            target.as_bytes(),
            tag,
            object,
        ),
        Ref::Unborn {
            full_ref_name,
            target,
        } => append_target(text, full_ref_name.as_bytes(), target.as_bytes()),
    }
}

/// The refs of a server as `git ls-remote --symref` prints them.
pub fn listing(alloc: Global, refs: &[Ref]) -> Result<Vec<u8>, AllocError>
    ensures { IfOk result (λ text. text.items ≡ flat_map ref_lines refs.now) }
{
    let mut text = Vec::new(alloc);
    for found in refs {
        append_ref(&mut text, found)?;
    }
    Ok(text)
}
