//! The list of refs that git reads from a remote helper (gitremote-helpers, "list").
ghost use Rattle.std.specs.Prelude.{◌≡◌, ◌||◌, ◌∷◌, [], ◌++◌, ℕ, List, flat_map, map, IfOk, OnOk};
ghost use Rattle.std.specs.List.{list_all};
ghost use Rattle.std.specs.Option.{option_map};
ghost use Rattle.std.specs.Str.{bytes_eq};
ghost use Rattle.bstr.specs.Owned.{bstring_bytes};
ghost use Rattle.gixp_updates.specs.RefNames.{has_text};
ghost use Rattle.gixp_remote_session.specs.RefLines.{is_plain, is_plain_byte, id_line, symbolic_line, object_lines, ref_lines};
ghost use Rattle.gixp_remote_session.specs.RefLines.{holds, is_held, is_by_target, fitting_lines, broken_name, format_line, list_text};

use bstr::BString;
use gix_protocol::handshake::Ref;
use gix_protocol::transport::ObjectId;
use std::alloc::{AllocError, Global};
use std::collections::BTreeSet;

// Whether a byte is neither a space nor a control character.
fn is_plain_byte(byte: u8) -> bool
    ensures { result ≡ is_plain_byte byte }
{
    byte > b' ' && byte != 127
}

fn are_plain(name: &[u8]) -> bool
    ensures { result ≡ list_all is_plain_byte name.now }
{
    name.iter().all(|byte| is_plain_byte(*byte))
}

// Whether the name can be in a line of the list. git itself skips other names that aren't valid
// (git-check-ref-format).
fn is_plain(name: &[u8]) -> bool
    ensures { result ≡ is_plain name.now }
{
    !name.is_empty() && are_plain(name)
}

// A line with an id and a name.
fn append_id(text: &mut Vec<u8>, id: &ObjectId, name: &[u8], mark: &[u8]) -> Result<(), AllocError>
    ensures { OnOk result (text.new.items ≡ text.old.items ++ id_line id.now.bytes name.now mark.now) }
{
    text.extend_from_slice(&id.to_hex())?;
    text.extend_from_slice(b" ")?;
    text.extend_from_slice(name)?;
    text.extend_from_slice(mark)?;
    text.extend_from_slice(b"\n")
}

// The line of a symbolic ref.
fn append_symbolic(text: &mut Vec<u8>, target: &[u8], name: &[u8]) -> Result<(), AllocError>
    ensures { OnOk result (text.new.items ≡ text.old.items ++ symbolic_line target.now name.now) }
{
    text.extend_from_slice(b"@")?;
    text.extend_from_slice(target)?;
    text.extend_from_slice(b" ")?;
    text.extend_from_slice(name)?;
    text.extend_from_slice(b"\n")
}

fn add_text<'r>(names: &mut BTreeSet<&'r [u8]>, name: &'r [u8]) -> Result<(), AllocError>
    ensures { OnOk result ((text : List ℕ) → has_text names.new text ≡ (has_text names.old text || bytes_eq text name.now)) }
{
    names.insert(name)?;
    Ok(())
}

// Adds the name of a ref that isn't symbolic.
fn add_holder<'r>(names: &mut BTreeSet<&'r [u8]>, found: &'r Ref) -> Result<(), AllocError>
    ensures { OnOk result ((text : List ℕ) → has_text names.new text ≡ (has_text names.old text || holds text found.now)) }
{
    match found {
        Ref::Direct { full_ref_name, .. } => add_text(names, full_ref_name.as_bytes()),
        Ref::Peeled { full_ref_name, .. } => add_text(names, full_ref_name.as_bytes()),
        Ref::Symbolic { .. } | Ref::Unborn { .. } => Ok(()),
    }
}

// The names of the refs that aren't symbolic.
fn holders(alloc: Global, refs: &[Ref]) -> Result<BTreeSet<&[u8]>, AllocError>
    ensures { IfOk result (λ names. (text : List ℕ) → has_text names text ≡ is_held refs.now text) }
{
    let mut names = BTreeSet::new(alloc);
    'refs: for found in refs {
        add_holder(&mut names, found)?;
    }
    Ok(names)
}

// The line of an object, or of a tag and of the object that it points to.
fn append_object(
    text: &mut Vec<u8>,
    name: &[u8],
    tag: &Option<ObjectId>,
    object: &ObjectId,
) -> Result<(), AllocError>
    ensures { OnOk result (text.new.items ≡ text.old.items ++ object_lines name.now (option_map (λ t. t.bytes) tag.now) object.now.bytes) }
{
    match tag {
        Some(tag) => {
            append_id(text, tag, name, b"")?;
            append_id(text, object, name, b"^{}")
        }
        None => append_id(text, object, name, b""),
    }
}

// The lines of a ref. A symbolic ref is listed by its target if the list has the target, else by
// its object.
fn append_ref(text: &mut Vec<u8>, found: &Ref, by_target: bool) -> Result<(), AllocError>
    ensures { OnOk result (text.new.items ≡ text.old.items ++ ref_lines by_target found.now) }
{
    match found {
        Ref::Direct {
            full_ref_name,
            object,
        } => append_object(text, full_ref_name.as_bytes(), &None, object),
        Ref::Peeled {
            full_ref_name,
            tag,
            object,
        } => append_object(text, full_ref_name.as_bytes(), &Some(*tag), object),
        Ref::Symbolic {
            full_ref_name,
            target,
            tag,
            object,
        } => {
            if by_target {
                append_symbolic(text, target.as_bytes(), full_ref_name.as_bytes())
            } else {
                append_object(text, full_ref_name.as_bytes(), tag, object)
            }
        }
        Ref::Unborn { .. } => Ok(()),
    }
}

fn is_by_target(found: &Ref, holders: &BTreeSet<&[u8]>) -> bool
    ensures { result ≡ is_by_target (has_text holders.now) found.now }
{
    match found {
        Ref::Symbolic { target, .. } => holders.contains(target.as_bytes()),
        Ref::Direct { .. } | Ref::Peeled { .. } | Ref::Unborn { .. } => false,
    }
}

/// The list of refs for git.
#[derive(Drop)]
pub(crate) struct RefListing {
    /// The lines.
    pub(crate) text: Vec<u8>,
    /// The names that git can't read in a line. They are left out.
    pub(crate) broken: Vec<BString>,
}

fn add_name(alloc: Global, names: &mut Vec<BString>, name: &[u8]) -> Result<(), AllocError>
    ensures { OnOk result (map bstring_bytes names.new.items ≡ map bstring_bytes names.old.items ++ name.now ∷ []) }
{
    names.push(BString::from_slice(alloc, name)?)?;
    Ok(())
}

// Adds the lines of a ref, or adds its name to the broken ones.
fn list_ref(
    alloc: Global,
    listing: &mut RefListing,
    found: &Ref,
    holders: &BTreeSet<&[u8]>,
) -> Result<(), AllocError>
    ensures text { OnOk result (listing.new.text.items ≡ listing.old.text.items ++ fitting_lines (has_text holders.now) found.now) }
    ensures broken { OnOk result (map bstring_bytes listing.new.broken.items ≡ map bstring_bytes listing.old.broken.items ++ broken_name found.now) }
{
    if is_plain(found.name().as_bytes()) {
        append_ref(&mut listing.text, found, is_by_target(found, holders))
    } else {
        add_name(alloc, &mut listing.broken, found.name().as_bytes())
    }
}

// The line of the hash function, if git asks for it.
fn format_line(alloc: Global, lists_format: bool) -> Result<Vec<u8>, AllocError>
    ensures { IfOk result (λ text. text.items ≡ format_line lists_format) }
{
    if lists_format {
        Vec::from_slice(alloc, b":object-format sha1\n")
    } else {
        Ok(Vec::new(alloc))
    }
}

/// The list of the refs, with the hash function if git asks for it. An empty line ends it.
pub(crate) fn ref_listing(
    alloc: Global,
    refs: &[Ref],
    lists_format: bool,
) -> Result<RefListing, AllocError>
    ensures text { IfOk result (λ listing. listing.text.items ≡ list_text lists_format refs.now) }
    ensures broken { IfOk result (λ listing. map bstring_bytes listing.broken.items ≡ flat_map broken_name refs.now) }
{
    let holders = holders(alloc, refs)?;
    let mut listing = RefListing {
        text: format_line(alloc, lists_format)?,
        broken: Vec::new(alloc),
    };
    'refs: for found in refs {
        list_ref(alloc, &mut listing, found, &holders)?;
    }
    listing.text.extend_from_slice(b"\n")?;
    Ok(listing)
}
