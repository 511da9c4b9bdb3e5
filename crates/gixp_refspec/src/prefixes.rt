//! The prefixes of a refspec for `ls-refs`.
ghost use Rattle.std.specs.Prelude.{◌≡◌, [], ◌∷◌, ◌++◌, map, OnOk, OnErr};
ghost use Rattle.bstr.specs.Owned.{bstring_bytes};
ghost use Rattle.gixp_refspec.specs.Matching.{kind_of, candidates, joined, rule_of, prefixes_by};
ghost use Rattle.gixp_refspec.specs.Texts.{texts, AddsSome};

use crate::needle::{Needle, RULES};
use crate::text::joined;
use bstr::BString;
use std::alloc::{AllocError, Global};

fn push_text(out: &mut Vec<BString>, text: BString) -> Result<(), AllocError>
    ensures ok { OnOk result (texts out.new ≡ texts out.old ++ bstring_bytes text ∷ []) }
    ensures err { OnErr result (texts out.new ≡ texts out.old) }
{
    out.push(text)?;
    Ok(())
}

// Appends the three texts as one.
fn push_joined(
    alloc: Global,
    out: &mut Vec<BString>,
    front: &[u8],
    middle: &[u8],
    back: &[u8],
) -> Result<(), AllocError>
    ensures ok { OnOk result (texts out.new ≡ texts out.old ++ (front.now ++ (middle.now ++ back.now)) ∷ []) }
    ensures err { OnErr result (texts out.new ≡ texts out.old) }
{
    let text = joined(alloc, front, middle, back)?;
    push_text(out, text)
}

// Appends the expansions of the short name by these rules.
fn push_made(
    alloc: Global,
    out: &mut Vec<BString>,
    rules: &[(&[u8], &[u8])],
    short: &[u8],
) -> Result<(), AllocError>
    ensures { AddsSome result (texts out.old) (map (λ rule. joined short.now (rule_of rule)) rules.now) (texts out.new) }
{
    'rules: for (front, back) in rules {
        push_joined(alloc, out, front, short, back)?;
    }
    Ok(())
}

fn push_prefix(alloc: Global, out: &mut Vec<BString>, prefix: &[u8]) -> Result<(), AllocError>
    ensures { AddsSome result (texts out.old) (prefix.now ∷ []) (texts out.new) }
{
    let text = BString::from_slice(alloc, prefix)?;
    push_text(out, text)?;
    Ok(())
}

/// Appends the prefixes of a source.
#[tactic(auto, unfolding(crate::specs::Matching::candidates))]
pub(crate) fn push_prefixes(
    alloc: Global,
    out: &mut Vec<BString>,
    source: &[u8],
) -> Result<(), AllocError>
    ensures { AddsSome result (texts out.old) (prefixes_by (kind_of source.now) source.now) (texts out.new) }
{
    match Needle::new(source) {
        Needle::Id => Ok(()),
        Needle::Pattern { before, .. } => push_prefix(alloc, out, before),
        Needle::Exact(name) => push_prefix(alloc, out, name),
        Needle::Short(name) => push_made(alloc, out, &RULES, name),
    }
}
