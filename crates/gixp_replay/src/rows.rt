//! Test vectors: the recorded input. The README of this crate describes the payload of each mode.
//!
//! A test vector is a head and lines of bytes:
//!
//!     NAME MODE SETTING=VALUE.. # a remark for readers
//!     |bytes
//!     |more bytes\
//!
//! Each line after `|` ends with an LF, unless it ends with `\`. `\HH` is a byte in two digits. `\*N;` repeats the byte before it,
//! N times in all. Empty lines and lines that begin with `#` are ignored. A value is a word or a number. The module of a mode lists
//! its settings. Each mode has seven more:
//!
//! - `pieces=N`: reads return N bytes; `random-pieces=N`: the sizes of reads depend on N, a million or more. The default is all
//!   bytes at once.
//! - `halves=each`: the bytes come in two pieces, for each offset at which they can be split. Equal results are joined.
//! - `fail-at=N`: the read with this number fails, from 1 on, with the error `fail-as=`. The default is none.
//! - `again=N` and `from=N`: the bytes from offset `from` on are repeated N times more.
use crate::{
    answers, bands, boundaries, capabilities, fetches, handshakes, lines, listings, maps,
    negotiations, openings, packs, places, plans, progress_lines, refs, requests, sessions, shakes,
};
use gixp_doubles::{Device, Pieces};
use std::alloc::Global;
use std::io::ErrorKind;
use thiserror::Error as DeriveError;

#[derive(Clone, Copy)]
pub(crate) enum Mode {
    /// Calls of a line reader.
    Lines,
    /// Calls of a reader of bands.
    Bands,
    /// Refs of version 2.
    Refs,
    /// A handshake, and the refs of versions 0 and 1.
    Handshake,
    /// A handshake at each offset of an advertisement.
    Places,
    /// The first packet line of a client.
    Opening,
    /// A response to a fetch.
    Answer,
    /// A pack through its bands.
    Pack,
    /// Capabilities, and the features that they allow.
    Capabilities,
    /// A line of a response.
    AnswerLine,
    /// A shallow boundary as text.
    Boundary,
    /// The agent of a client.
    Agent,
    Requests,
    /// A session of several requests.
    Session,
    Refspec,
    RefName,
    /// The prefixes of refspecs.
    Prefixes,
    /// The mappings of names by refspecs.
    Matches,
    RefMap,
    /// A handshake with an account.
    Account,
    /// A ref map after a handshake.
    Listing,
    /// A progress line.
    Progress,
    /// A whole fetch.
    Fetch,
    Negotiation,
    /// A plan over recorded bodies.
    Plan,
    /// A URL.
    Url,
}

static MODES: [(&str, Mode); 26] = [
    ("lines", Mode::Lines),
    ("bands", Mode::Bands),
    ("refs", Mode::Refs),
    ("handshake", Mode::Handshake),
    ("places", Mode::Places),
    ("opening", Mode::Opening),
    ("answer", Mode::Answer),
    ("pack", Mode::Pack),
    ("capabilities", Mode::Capabilities),
    ("answer-line", Mode::AnswerLine),
    ("boundary", Mode::Boundary),
    ("agent", Mode::Agent),
    ("requests", Mode::Requests),
    ("session", Mode::Session),
    ("refspec", Mode::Refspec),
    ("ref-name", Mode::RefName),
    ("prefixes", Mode::Prefixes),
    ("matches", Mode::Matches),
    ("ref-map", Mode::RefMap),
    ("account", Mode::Account),
    ("listing", Mode::Listing),
    ("progress", Mode::Progress),
    ("fetch", Mode::Fetch),
    ("negotiation", Mode::Negotiation),
    ("plan", Mode::Plan),
    ("url", Mode::Url),
];

/// A setting of a mode: its name, the words for 0, 1 and so on unless it is a number, and its default.
pub(crate) type Setting = (&'static str, &'static [&'static str], u64);

/// The values of a yes/no setting.
pub(crate) const NO_YES: &[&str] = &["no", "yes"];

/// The values of a setting for the kind of transport.
pub(crate) const BODIES_CONNECTION: &[&str] = &["bodies", "connection"];

// The settings that each mode has.
const EACH: &[Setting] = &[
    ("pieces", &[], 0),
    ("random-pieces", &[], 0),
    ("fail-at", &[], 0),
    ("fail-as", &["interrupted", "timed-out", "denied"], 0),
    ("again", &[], 0),
    ("from", &[], 0),
    ("halves", &["no", "each"], 0),
];

impl Mode {
    fn settings(self) -> &'static [Setting] {
        match self {
            Mode::Lines => lines::SETTINGS,
            Mode::Bands => bands::SETTINGS,
            Mode::Refs => refs::SETTINGS,
            Mode::Handshake => handshakes::SETTINGS,
            Mode::Places => places::SETTINGS,
            Mode::Opening => openings::SETTINGS,
            Mode::Answer => answers::SETTINGS,
            Mode::Pack => packs::SETTINGS,
            Mode::Capabilities => capabilities::SETTINGS,
            Mode::Boundary => boundaries::SETTINGS,
            Mode::Requests => requests::SETTINGS,
            Mode::Session => sessions::SETTINGS,
            Mode::RefMap => maps::SETTINGS,
            Mode::Account => shakes::SETTINGS,
            Mode::Listing => listings::SETTINGS,
            Mode::Progress => progress_lines::SETTINGS,
            Mode::Fetch => fetches::SETTINGS,
            Mode::Negotiation => negotiations::SETTINGS,
            Mode::Plan => plans::SETTINGS,
            Mode::Agent
            | Mode::AnswerLine
            | Mode::Refspec
            | Mode::RefName
            | Mode::Prefixes
            | Mode::Matches
            | Mode::Url => &[],
        }
    }
}

// Bytes to repeat.
#[derive(Clone, Copy)]
struct Repeat {
    // The number of repetitions.
    times: u64,
    // The offset of the first of these bytes.
    start: u64,
}

/// The values of a test vector's settings, in the order of its mode's settings.
pub(crate) type Settings = [u64; 6];

/// A test vector.
#[derive(Clone, Copy)]
pub(crate) struct Row<'a> {
    pub(crate) mode: Mode,
    pub(crate) settings: Settings,
    /// The sizes of reads.
    pub(crate) pieces: Pieces,
    /// Whether the bytes come in two pieces instead, split at each offset.
    pub(crate) is_halved: bool,
    /// The number of the read that fails, from 1 on, or 0 for none.
    pub(crate) fail_at: u64,
    /// The error of that read.
    pub(crate) fail_as: ErrorKind,
    pub(crate) payload: &'a [u8],
    repeat: Repeat,
}

impl<'a> Row<'a> {
    pub(crate) fn with_bytes(self, payload: &'a [u8]) -> Row<'a> {
        Row { payload, ..self }
    }

    /// A reader of these bytes with the settings of the test vector.
    pub(crate) fn device<'b>(&self, bytes: &'b [u8]) -> Device<'b> {
        let mut device = self.whole_device(bytes);
        if self.fail_at > 0 {
            device.fails = self.fail_at - 1;
            device.kind = self.fail_as;
        }
        device
    }

    /// The same without a failing read.
    pub(crate) fn whole_device<'b>(&self, bytes: &'b [u8]) -> Device<'b> {
        let mut device = Device::new(bytes, usize::MAX);
        device.pieces = self.pieces;
        device
    }
}

/// The error of a malformed test vector.
#[derive(Clone, Copy, Debug, Drop, DeriveError)]
pub(crate) enum RowError {
    #[error("there is no mode of this name")]
    Mode,
    #[error("its mode doesn't have this setting")]
    Setting,
    #[error("the setting doesn't have this value")]
    Value,
    #[error("bytes that belong to no vector")]
    Head,
    #[error("an escape without a byte or an end")]
    Escape,
    #[error("its mode doesn't know a word of its bytes")]
    Script,
    #[error("out of memory")]
    Memory,
}

/// The text before the first such byte, and the text after it.
pub(crate) fn cut_at_byte(text: &[u8], byte: u8) -> (&[u8], &[u8]) {
    match text.iter().position(|b| *b == byte) {
        Some(place) => {
            if place >= text.len() {
                return (text, &[]);
            }
            let (front, back) = text.split_at(place);
            match back {
                [_, back @ ..] => (front, back),
                [] => (front, back),
            }
        }
        None => (text, &[]),
    }
}

/// The first `place` bytes, or all if there are fewer, and the rest.
pub(crate) fn cut_at(text: &[u8], place: u64) -> (&[u8], &[u8]) {
    let place = match usize::try_from(place) {
        Ok(place) => place.min(text.len()),
        Err(_) => text.len(),
    };
    text.split_at(place)
}

/// A number in decimal digits.
pub(crate) fn number(text: &[u8]) -> Option<u64> {
    let Ok(text) = str::from_utf8(text) else {
        return None;
    };
    match text.parse::<u64>() {
        Ok(number) => Some(number),
        Err(_) => None,
    }
}

/// The value of a word in a table.
pub(crate) fn meaning_of<T: Copy>(table: &[(&'static str, T)], word: &[u8]) -> Option<T> {
    for (name, meaning) in table {
        if name.as_bytes() == word {
            return Some(*meaning);
        }
    }
    None
}

// The index of a word.
fn place_of(words: &[&str], word: &[u8]) -> Option<u64> {
    let mut place = 0u64;
    for name in words {
        if name.as_bytes() == word {
            return Some(place);
        }
        place = place.saturating_add(1);
    }
    None
}

fn set_defaults(settings: &[Setting], values: &mut [u64]) {
    for (value, (_name, _words, default)) in values.iter_mut().zip(settings) {
        *value = *default;
    }
}

// Sets a setting. Returns false if it doesn't exist.
fn set(
    settings: &[Setting],
    name: &[u8],
    text: &[u8],
    values: &mut [u64],
) -> Result<bool, RowError> {
    for (value, (known, words, _default)) in values.iter_mut().zip(settings) {
        if known.as_bytes() != name {
            continue;
        }
        let found = if words.is_empty() {
            number(text)
        } else {
            place_of(words, text)
        };
        return match found {
            Some(found) => {
                *value = found;
                Ok(true)
            }
            None => Err(RowError::Value),
        };
    }
    Ok(false)
}

// The sizes of reads.
fn pieces_of(most: u64, random: u64) -> Pieces {
    if random > 0 {
        return Pieces::Random(random);
    }
    match usize::try_from(most) {
        Ok(most) if most > 0 => Pieces::UpTo(most),
        _ => Pieces::UpTo(usize::MAX),
    }
}

// The error of a read, by the index of its word.
fn kind_of(word: u64) -> ErrorKind {
    match word {
        0 => ErrorKind::Interrupted,
        1 => ErrorKind::TimedOut,
        _ => ErrorKind::PermissionDenied,
    }
}

// Parses a head, without the payload.
fn row_of(mode: Mode, words: &[u8]) -> Result<Row<'static>, RowError> {
    let mut settings: Settings = [0; 6];
    set_defaults(mode.settings(), &mut settings);
    let mut each = [0u64; 7];
    set_defaults(EACH, &mut each);
    for word in words.split(|b| *b == b' ') {
        if word.is_empty() {
            continue;
        }
        let (name, text) = cut_at_byte(word, b'=');
        let is_set = set(mode.settings(), name, text, &mut settings)?
            || set(EACH, name, text, &mut each)?;
        if !is_set {
            return Err(RowError::Setting);
        }
    }
    let [
        pieces,
        random_pieces,
        fail_at,
        fail_as,
        times,
        start,
        halves,
    ] = each;
    Ok(Row {
        mode,
        settings,
        pieces: pieces_of(pieces, random_pieces),
        is_halved: halves == 1,
        fail_at,
        fail_as: kind_of(fail_as),
        payload: &[],
        repeat: Repeat { times, start },
    })
}

/// A test vector as text.
#[derive(Clone, Copy)]
pub(crate) struct RowText<'a> {
    /// Its name: the name of its group, and a number after `/` if the group has several.
    pub(crate) name: &'a [u8],
    head: &'a [u8],
    body: &'a [u8],
}

// The text without empty lines and remarks at its start.
fn without_remarks(text: &[u8]) -> &[u8] {
    let mut rest = text;
    for _ in 0..text.len() {
        match rest {
            [b'\n' | b'#', ..] => rest = cut_at_byte(rest, b'\n').1,
            _ => break,
        }
    }
    rest
}

/// The first test vector, and the rest of the text. Returns nothing at the end.
pub(crate) fn next_row(text: &[u8]) -> Option<(RowText<'_>, &[u8])> {
    let text = without_remarks(text);
    if text.is_empty() {
        return None;
    }
    let (line, body) = cut_at_byte(text, b'\n');
    let (line, _remark) = cut_at_byte(line, b'#');
    let (name, head) = cut_at_byte(line, b' ');
    let mut rest = body;
    for _ in 0..body.len() {
        match rest {
            [b'|', ..] => rest = cut_at_byte(rest, b'\n').1,
            _ => break,
        }
    }
    let (body, rest) = body.split_at(body.len().saturating_sub(rest.len()));
    Some((RowText { name, head, body }, rest))
}

fn digit_of(byte: u8) -> Option<u8> {
    match byte {
        b'0'..=b'9' => Some(byte - b'0'),
        b'a'..=b'f' => Some(byte - b'a' + 10),
        _ => None,
    }
}

// The byte of two digits.
fn byte_of(high: u8, low: u8) -> Result<u8, RowError> {
    match (digit_of(high), digit_of(low)) {
        (Some(high), Some(low)) => Ok(high.wrapping_mul(16).wrapping_add(low)),
        _ => Err(RowError::Escape),
    }
}

fn push(bytes: &mut Vec<u8>, byte: u8) -> Result<(), RowError> {
    match bytes.push(byte) {
        Ok(()) => Ok(()),
        Err(_) => Err(RowError::Memory),
    }
}

// Repeats the last byte. The number ends with a `;`. Returns the rest of the text.
fn repeat_last<'a>(text: &'a [u8], bytes: &mut Vec<u8>) -> Result<&'a [u8], RowError> {
    let (digits, rest) = cut_at_byte(text, b';');
    let (Some(times), Some(byte)) = (number(digits), bytes.last()) else {
        return Err(RowError::Escape);
    };
    let byte = *byte;
    for _ in 1..times.min(1_000_000) {
        push(bytes, byte)?;
    }
    Ok(rest)
}

// Adds the bytes of a line.
fn read_line(line: &[u8], bytes: &mut Vec<u8>) -> Result<(), RowError> {
    let mut rest = line;
    for _ in 0..line.len() {
        match rest {
            [] => break,
            [b'\\'] => return Ok(()),
            [b'\\', b'*', after @ ..] => rest = repeat_last(after, bytes)?,
            [b'\\', high, low, after @ ..] => {
                push(bytes, byte_of(*high, *low)?)?;
                rest = after;
            }
            [b'\\', ..] => return Err(RowError::Escape),
            [byte, after @ ..] => {
                push(bytes, *byte)?;
                rest = after;
            }
        }
    }
    push(bytes, b'\n')
}

// Repeats the bytes from an offset on.
fn add_again(bytes: &mut Vec<u8>, alloc: Global, repeat: Repeat) -> Result<(), RowError> {
    let (_, chunk) = cut_at(bytes, repeat.start);
    let Ok(chunk) = chunk.to_vec(alloc) else {
        return Err(RowError::Memory);
    };
    for _ in 0..repeat.times {
        if bytes.extend_from_slice(&chunk).is_err() {
            return Err(RowError::Memory);
        }
    }
    Ok(())
}

impl RowText<'_> {
    // The bytes as written.
    fn written_bytes(&self, alloc: Global) -> Result<Vec<u8>, RowError> {
        let mut bytes = Vec::new(alloc);
        let mut rest = self.body;
        for _ in 0..self.body.len() {
            let [b'|', line @ ..] = rest else {
                break;
            };
            let (line, after) = cut_at_byte(line, b'\n');
            read_line(line, &mut bytes)?;
            rest = after;
        }
        Ok(bytes)
    }

    /// The bytes of the test vector, with repetitions.
    pub(crate) fn bytes(&self, alloc: Global, row: &Row<'_>) -> Result<Vec<u8>, RowError> {
        let mut bytes = self.written_bytes(alloc)?;
        if row.repeat.times > 0 {
            add_again(&mut bytes, alloc, row.repeat)?;
        }
        Ok(bytes)
    }

    /// The test vector without its bytes.
    pub(crate) fn head(&self) -> Result<Row<'static>, RowError> {
        if self.name.starts_with(b"|") {
            return Err(RowError::Head);
        }
        let (word, words) = cut_at_byte(self.head, b' ');
        match meaning_of(&MODES, word) {
            Some(mode) => row_of(mode, words),
            None => Err(RowError::Mode),
        }
    }

    /// Whether this is its name, or that of its group.
    pub(crate) fn is_named(&self, name: &[u8]) -> bool {
        self.name == name || cut_at_byte(self.name, b'/').0 == name
    }
}
