//! A source that is examined once and compared with many names, as `gixp_matching` does.
ghost use Rattle.std.specs.Prelude.{◌≡◌, ◌<◌, ◌++◌, length, IfSome};
ghost use Rattle.std.specs.Option.{option_copied};
ghost use Rattle.std.specs.List.{position, list_any};
ghost use Rattle.std.specs.Str.{bytes_eq};
ghost use Rattle.gixp_refspec.specs.Needle.{IsAround};
ghost use Rattle.gixp_refspec.specs.Matching.{is_star, between, candidates, joined, rule_of, where_true};

use crate::spec::{is_full, is_id};

/// The kind and the parts of a source.
#[derive(Clone, Copy)]
pub enum Needle<'a> {
    /// An object id, which matches no name.
    Id,
    /// A text with an asterisk, which matches any bytes.
    Pattern {
        /// The text before the asterisk.
        before: &'a [u8],
        /// The text after it.
        after: &'a [u8],
    },
    /// `HEAD` or a name that begins with `refs/`. It matches only itself.
    Exact(&'a [u8]),
    /// Any other name. It matches its six expansions.
    Short(&'a [u8]),
}

/// The text before and after a short name in each of its expansions (gitrevisions, "Specifying revisions").
pub const RULES: [(&[u8], &[u8]); 6] = [
    (b"", b""),
    (b"refs/", b""),
    (b"refs/tags/", b""),
    (b"refs/heads/", b""),
    (b"refs/remotes/", b""),
    (b"refs/remotes/", b"/HEAD"),
];

impl<'a> Needle<'a> {
    ghost use Rattle.gixp_refspec.specs.Needle.{IsNeedle, middle_with};

    /// Examines a source.
    #[tactic(auto, unfolding(crate::specs::Matching::kind_of))]
    pub fn new(source: &'a [u8]) -> Needle<'a>
        ensures { IsNeedle source.now result }
    {
        if is_id(source) {
            return Needle::Id;
        }
        if let Some((before, after)) = around_star(source) {
            return Needle::Pattern { before, after };
        }
        if is_full(source) {
            Needle::Exact(source)
        } else {
            Needle::Short(source)
        }
    }

    /// The middle of a name that the source matches: the part that the asterisk matches, or empty where the source is not a pattern.
    #[inline(always)]
    pub fn middle<'n>(&self, name: &'n [u8]) -> Option<&'n [u8]>
        ensures { option_copied result ≡ middle_with self.now name.now }
    {
        match self {
            Needle::Id => None,
            Needle::Pattern { before, after } => between(before, after, name),
            Needle::Exact(text) => where_true(name == *text),
            Needle::Short(text) => where_true(is_candidate(text, name)),
        }
    }
}

// The offset of the first asterisk.
fn star_in(text: &[u8]) -> Option<usize>
    ensures place { result ≡ position is_star text.now }
    ensures within { IfSome result (λ i. i < length text.now) }
{
    text.iter().position(|byte| *byte == b'*')
}

/// The text before and after the first asterisk, if there is one.
#[inline(always)]
pub fn around_star(text: &[u8]) -> Option<(&[u8], &[u8])>
    ensures { IsAround text.now result }
{
    match star_in(text) {
        Some(at) => Some((&text[..at], &text[at + 1..])),
        None => None,
    }
}

// The part of the name between front and back, if it begins and ends with them.
fn between<'a>(front: &[u8], back: &[u8], name: &'a [u8]) -> Option<&'a [u8]>
    ensures { option_copied result ≡ between front.now back.now name.now }
{
    match name.strip_prefix(front) {
        None => None,
        Some(rest) => rest.strip_suffix(back),
    }
}

// Whether the name is front, middle and back.
fn is_joined(name: &[u8], front: &[u8], middle: &[u8], back: &[u8]) -> bool
    ensures { result ≡ bytes_eq name.now (front.now ++ (middle.now ++ back.now)) }
{
    match name.strip_prefix(front) {
        None => false,
        Some(rest) => match rest.strip_prefix(middle) {
            None => false,
            Some(rest) => rest == back,
        },
    }
}

// Whether one of the rules expands the short name to the name.
fn is_made_by(rules: &[(&[u8], &[u8])], short: &[u8], name: &[u8]) -> bool
    ensures { result ≡ list_any (λ rule. bytes_eq name.now (joined short.now (rule_of rule))) rules.now }
{
    rules
        .iter()
        .any(|(front, back)| is_joined(name, front, short, back))
}

// Whether the name is an expansion of the short name.
#[tactic(auto, unfolding(crate::specs::Matching::candidates))]
fn is_candidate(short: &[u8], name: &[u8]) -> bool
    ensures { result ≡ list_any (λ candidate. bytes_eq name.now candidate) (candidates short.now) }
{
    is_made_by(&RULES, short, name)
}

// The empty middle of a name that passed a test.
fn where_true<'a>(is_match: bool) -> Option<&'a [u8]>
    ensures { option_copied result ≡ where_true is_match }
{
    if is_match { Some(b"") } else { None }
}
