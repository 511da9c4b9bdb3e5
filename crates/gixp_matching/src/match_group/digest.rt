//! Hashes of keys, by SipHash-2-4 with a fixed key. A server chooses names, but can hardly find several with one hash:
//! the rounds aren't linear, so names can't be put together from pieces that collide.
ghost use Rattle.std.specs.Prelude.{◌≡◌};
ghost use Rattle.std.specs.List.{fold};
ghost use Rattle.gixp_matching.specs.Apart.{key_parts};
ghost use Rattle.gixp_matching.specs.Digest.{step, tail, turned, round, absorbed, with_word, with_bytes, start, number_of, digest, bytes_of, parts_digest};
ghost use Rattle.gixp_matching.specs.MatchGroup.{key_bytes, key_source};

use crate::match_group::key::{Key, KeyBytes, KeySource};

/// The state after the bytes so far.
#[derive(Clone, Copy)]
pub(crate) struct State {
    pub(crate) a: u64,
    pub(crate) b: u64,
    pub(crate) c: u64,
    pub(crate) d: u64,
}

/// Appends a byte at the low end of a number.
pub(crate) fn step(number: u64, byte: u8) -> u64
    ensures { result ≡ step number byte }
{
    number.wrapping_mul(256).wrapping_add(u64::from(byte))
}

// Appends bytes at the low end of a number.
fn packed(number: u64, bytes: &[u8]) -> u64
    ensures { result ≡ fold step number bytes.now }
{
    let mut now = number;
    'bytes: for byte in bytes {
        now = step(now, *byte);
    }
    now
}

/// The last eight bytes as a number.
#[tactic(auto, unfolding(crate::specs::Digest::tail))]
pub(crate) fn tail(name: &[u8]) -> u64
    ensures { result ≡ tail name.now }
{
    packed(0, &name[name.len().saturating_sub(8)..])
}

// The sum of two words, and the second word rotated and mixed with it.
#[tactic(auto, unfolding(crate::specs::Digest::turned))]
fn turned(x: u64, y: u64, count: u32) -> (u64, u64)
    ensures { result ≡ turned x y count }
{
    let sum = x.wrapping_add(y);
    (sum, y.rotate_left(count) ^ sum)
}

// One round on the four words.
#[tactic(auto, unfolding(crate::specs::Digest::round))]
fn round(state: State) -> State
    ensures { result ≡ round state }
{
    let (a, b) = turned(state.a, state.b, 13);
    let (c, d) = turned(state.c, state.d, 16);
    let (a, d) = turned(a.rotate_left(32), d, 21);
    let (c, b) = turned(c, b, 17);
    State {
        a,
        b,
        c: c.rotate_left(32),
        d,
    }
}

// The state after one more word.
#[tactic(auto, unfolding(crate::specs::Digest::absorbed))]
fn absorb(state: State, word: u64) -> State
    ensures { result ≡ absorbed state word }
{
    let State { a, b, c, d } = state;
    let mixed = round(round(State {
        a,
        b,
        c,
        d: d ^ word,
    }));
    State {
        a: mixed.a ^ word,
        b: mixed.b,
        c: mixed.c,
        d: mixed.d,
    }
}

// The state after more words.
fn absorb_words(state: State, words: &[[u8; 8]]) -> State
    ensures { result ≡ fold with_word state words.now }
{
    let mut now = state;
    'words: for word in words {
        now = absorb(now, u64::from_le_bytes(*word));
    }
    now
}

// The state after these bytes and their count.
#[tactic(auto, unfolding(crate::specs::Digest::with_bytes))]
fn absorb_bytes(state: State, bytes: &[u8]) -> State
    ensures { result ≡ with_bytes state bytes.now }
{
    let (words, rest) = bytes.as_chunks::<8>();
    let state = absorb_words(state, words);
    absorb(state, packed(bytes.len() as u64, rest))
}

// The state before the first byte.
fn start() -> State
    ensures { result ≡ start }
{
    State {
        a: 0x736f_6d65_7073_6575,
        b: 0x646f_7261_6e64_6f6d,
        c: 0x6c79_6765_6e65_7261,
        d: 0x7465_6462_7974_6573,
    }
}

// The hash of a state.
#[tactic(auto, unfolding(crate::specs::Digest::number_of))]
fn number_of(state: State) -> u64
    ensures { result ≡ number_of state }
{
    let State { a, b, c, d } = state;
    let last = round(round(round(round(State {
        a,
        b,
        c: c ^ 255,
        d,
    }))));
    last.a ^ last.b ^ last.c ^ last.d
}

pub(crate) fn name_digest(name: &KeyBytes<'_>) -> u64
    ensures { result ≡ digest (key_bytes name.now) }
{
    number_of(absorb_bytes(start(), name.bytes))
}

fn source_bytes<'a>(source: &KeySource<'a>) -> KeyBytes<'a>
    ensures { key_bytes result ≡ bytes_of (key_source source.now) }
{
    match source {
        KeySource::FullName(name) => *name,
        KeySource::ObjectId(id) => *id,
    }
}

/// The hash of a source and a local name.
pub(crate) fn key_digest(key: &Key<'_>) -> u64
    ensures { result ≡ parts_digest (key_parts key.now) }
{
    let source = source_bytes(&key.0);
    let state = absorb_bytes(start(), source.bytes);
    match &key.1 {
        None => number_of(state),
        Some(local) => number_of(absorb_bytes(state, local.bytes)),
    }
}
