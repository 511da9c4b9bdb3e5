//! The printed line of a ref.
ghost use Rattle.std.specs.Prelude.{◌≡◌, ◌++◌, OnOk};
ghost use Rattle.gixp_refs.specs.WrittenLine.{written_line};
ghost use Rattle.gixp_refs.specs.Ref.{ref_value, peeled, symbolic, unborn};
ghost use Rattle.gixp_refs.specs.ParseError.{object_of};

use gixp_hash::ObjectId;
use gixp_refs::handshake::Ref;
use gixp_utils::append;
use std::alloc::AllocError;

fn append_symbolic(
    text: &mut Vec<u8>,
    name: &[u8],
    target: &[u8],
    tag: &Option<ObjectId>,
    object: &ObjectId,
) -> Result<(), AllocError>
    ensures { OnOk result (text.new.items ≡ text.old.items
        ++ written_line (symbolic name.now target.now (object_of tag.now) object.now.bytes)) }
{
    let object = object.to_hex();
    match tag {
        None => append(
            text,
            &[&object, b" ", name, b" symref-target:", target, b"\n"],
        ),
        Some(tag) => append(
            text,
            &[
                &tag.to_hex(),
                b" ",
                name,
                b" symref-target:",
                target,
                b" peeled:",
                &object,
                b"\n",
            ],
        ),
    }
}

#[inline(always)]
fn append_peeled(
    text: &mut Vec<u8>,
    name: &[u8],
    tag: &ObjectId,
    object: &ObjectId,
) -> Result<(), AllocError>
    ensures { OnOk result (text.new.items ≡ text.old.items ++ written_line (peeled name.now tag.now.bytes object.now.bytes)) }
{
    let (tag, object) = (tag.to_hex(), object.to_hex());
    append(text, &[&tag, b" ", name, b" peeled:", &object, b"\n"])
}

fn append_unborn(text: &mut Vec<u8>, name: &[u8], target: &[u8]) -> Result<(), AllocError>
    ensures { OnOk result (text.new.items ≡ text.old.items ++ written_line (unborn name.now target.now)) }
{
    append(text, &[b"unborn ", name, b" symref-target:", target, b"\n"])
}

#[inline(always)]
fn append_ref(text: &mut Vec<u8>, found: &Ref) -> Result<(), AllocError>
    ensures { OnOk result (text.new.items ≡ text.old.items ++ written_line (ref_value found.now)) }
{
    match found {
        Ref::Direct {
            full_ref_name,
            object,
        } => append(
            text,
            &[&object.to_hex(), b" ", full_ref_name.as_bytes(), b"\n"],
        ),
        Ref::Peeled {
            full_ref_name,
            tag,
            object,
        } => append_peeled(text, full_ref_name.as_bytes(), tag, object),
        Ref::Symbolic {
            full_ref_name,
            target,
            tag,
            object,
        } => append_symbolic(
            text,
            full_ref_name.as_bytes(),
            target.as_bytes(),
            tag,
            object,
        ),
        Ref::Unborn {
            full_ref_name,
            target,
        } => append_unborn(text, full_ref_name.as_bytes(), target.as_bytes()),
    }
}

// Appends the line of a ref, and drops the ref while it is in the processor's cache.
#[inline(always)]
pub(crate) fn print_ref(text: &mut Vec<u8>, found: Ref) -> Result<(), AllocError>
    ensures { OnOk result (text.new.items ≡ text.old.items ++ written_line (ref_value found)) }
{
    append_ref(text, &found)
}
