//! The texts of argument lines.
ghost use Rattle.std.specs.Prelude.{◌≡◌, [], ◌∷◌, ◌++◌, map, OnOk, OnErr, IfOk, codes};
ghost use Rattle.bstr.specs.Owned.{bstring_bytes};
ghost use Rattle.gixp_requests.specs.Feature.{feature_value, feature_values, feature_text};
ghost use Rattle.gixp_requests.specs.Command.{texts};
ghost use Rattle.gixp_requests.specs.Arguments.{id_text, is_on, texts_on, spaced, after_blank};

use crate::command::Feature;
use bstr::BString;
use gixp_hash::ObjectId;
use std::alloc::{AllocError, Global};

pub(crate) fn push_text(list: &mut Vec<BString>, text: BString) -> Result<(), AllocError>
    ensures ok { OnOk result (texts list.new ≡ texts list.old ++ bstring_bytes text ∷ []) }
    ensures err { OnErr result (texts list.new ≡ texts list.old) }
{
    list.push(text)?;
    Ok(())
}

pub(crate) fn joined(alloc: Global, front: &[u8], back: &[u8]) -> Result<BString, AllocError>
    ensures { IfOk result (λ text. bstring_bytes text ≡ front.now ++ back.now) }
{
    let mut text = Vec::with_capacity(alloc, front.len().saturating_add(back.len()))?;
    text.extend_from_slice(front)?;
    text.extend_from_slice(back)?;
    Ok(BString::new(text))
}

// Whether the first want has this feature.
fn is_on(feature: &Feature, include_tag: bool, deepen_relative: bool) -> bool
    ensures { result ≡ is_on include_tag deepen_relative (feature_value feature.now) }
{
    if feature.0 == "include-tag" {
        include_tag
    } else if feature.0 == "deepen-relative" {
        deepen_relative
    } else {
        true
    }
}

pub(crate) fn push_feature(line: &mut Vec<u8>, feature: &Feature) -> Result<(), AllocError>
    ensures { OnOk result (line.new.items ≡ line.old.items ++ feature_text (feature_value feature.now)) }
{
    line.extend_from_slice(feature.0.as_bytes())?;
    if let Some(value) = &feature.1 {
        line.push(b'=')?;
        line.extend_from_slice(value.as_bytes())?;
    }
    Ok(())
}

// Appends a blank and the feature if the first want has it.
fn push_if_on(
    line: &mut Vec<u8>,
    feature: &Feature,
    include_tag: bool,
    deepen_relative: bool,
) -> Result<(), AllocError>
    ensures { OnOk result (line.new.items ≡ line.old.items
        ++ spaced (texts_on include_tag deepen_relative (feature_value feature.now ∷ []))) }
{
    if is_on(feature, include_tag, deepen_relative) {
        line.push(b' ')?;
        push_feature(line, feature)?;
    }
    Ok(())
}

// Appends the features of the first want, each after a blank.
fn push_on(
    line: &mut Vec<u8>,
    features: &[Feature],
    include_tag: bool,
    deepen_relative: bool,
) -> Result<(), AllocError>
    ensures { OnOk result (line.new.items ≡ line.old.items ++ spaced (texts_on include_tag deepen_relative (feature_values features.now))) }
{
    for feature in features {
        push_if_on(line, feature, include_tag, deepen_relative)?;
    }
    Ok(())
}

fn push_spaced(line: &mut Vec<u8>, text: &[u8]) -> Result<(), AllocError>
    ensures { OnOk result (line.new.items ≡ line.old.items ++ spaced (text.now ∷ [])) }
{
    line.push(b' ')?;
    line.extend_from_slice(text)?;
    Ok(())
}

fn push_added(line: &mut Vec<u8>, added: &[BString]) -> Result<(), AllocError>
    ensures { OnOk result (line.new.items ≡ line.old.items ++ spaced (map bstring_bytes added.now)) }
{
    for text in added {
        push_spaced(line, text.as_bytes())?;
    }
    Ok(())
}

// The features of the first want, each after a blank.
fn spaced_features(
    alloc: Global,
    features: &[Feature],
    include_tag: bool,
    deepen_relative: bool,
    added: &[BString],
) -> Result<Vec<u8>, AllocError>
    ensures { IfOk result (λ text. text.items
        ≡ spaced (texts_on include_tag deepen_relative (feature_values features.now) ++ map bstring_bytes added.now)) }
{
    let mut text = Vec::new(alloc);
    push_on(&mut text, features, include_tag, deepen_relative)?;
    push_added(&mut text, added)?;
    Ok(text)
}

// The text after the id of the first want: a blank, and the features joined by blanks.
pub(crate) fn features_text(
    alloc: Global,
    features: &[Feature],
    include_tag: bool,
    deepen_relative: bool,
    added: &[BString],
) -> Result<Vec<u8>, AllocError>
    ensures { IfOk result (λ text. text.items
        ≡ after_blank (texts_on include_tag deepen_relative (feature_values features.now) ++ map bstring_bytes added.now)) }
{
    let text = spaced_features(alloc, features, include_tag, deepen_relative, added)?;
    if text.is_empty() {
        return Vec::from_slice(alloc, b" ");
    }
    Ok(text)
}

pub(crate) fn want_line(
    alloc: Global,
    id: &ObjectId,
    following: &[u8],
) -> Result<BString, AllocError>
    ensures { IfOk result (λ line. bstring_bytes line ≡ codes "want " ++ (id_text id.now ++ following.now)) }
{
    let mut line = Vec::new(alloc);
    line.extend_from_slice(b"want ")?;
    line.extend_from_slice(&id.to_hex())?;
    line.extend_from_slice(following)?;
    Ok(BString::new(line))
}
