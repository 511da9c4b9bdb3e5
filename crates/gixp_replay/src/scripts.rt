//! The script of a whole fetch: lines of a word and a text, up to an empty line.
//!
//! `bodies` has the lengths of the bodies. `refspec` is a refspec, `have` the id of a have, `more-haves` the number of further
//! haves after these, `boundary` an id of the shallow boundary. `depth`, `deepen` and `since` are a depth from the refs, a depth
//! from the boundary, and a time; `exclude` is a ref to exclude, also in addition to a time. `tags all` fetches all tags, `tags
//! included` those that point into the fetched history. `reject-shallow` rejects shallow servers. `without` is a command table
//! without `sideband-all`, `ref-in-want` or `both`, or that of `recorded` requests. `no-pack` skips the pack. `interrupt-at` is the
//! check for an interrupt that is true, `store-fails` the call of the store that fails, and its error: `device`, `locked`, `line`
//! (not an id) or `memory`. Both count from 0.
use crate::rows::{cut_at_byte, meaning_of, number};
use bstr::{BStr, BString};
use gixp_hash::ObjectId;
use gixp_refmap::fetch::Tags;
use gixp_refspec::parse::{Operation, parse};
use gixp_refspec::{PartialName, RefSpec};
use gixp_requests::command::CommandTable;
use gixp_shallow::Shallow;
use std::alloc::{AllocError, Global};
use std::num::NonZeroU32;

/// The error of a store's call.
#[derive(Clone, Copy)]
pub(crate) enum Fault {
    Device,
    Locked,
    Line,
    Memory,
}

static FAULTS: [(&str, Fault); 4] = [
    ("device", Fault::Device),
    ("locked", Fault::Locked),
    ("line", Fault::Line),
    ("memory", Fault::Memory),
];

#[derive(Clone, Copy)]
enum Line {
    Bodies,
    Refspec,
    Have,
    MoreHaves,
    Boundary,
    Depth,
    Deepen,
    Since,
    Exclude,
    Tags,
    RejectShallow,
    Without,
    NoPack,
    InterruptAt,
    StoreFails,
}

static LINES: [(&str, Line); 15] = [
    ("bodies", Line::Bodies),
    ("refspec", Line::Refspec),
    ("have", Line::Have),
    ("more-haves", Line::MoreHaves),
    ("boundary", Line::Boundary),
    ("depth", Line::Depth),
    ("deepen", Line::Deepen),
    ("since", Line::Since),
    ("exclude", Line::Exclude),
    ("tags", Line::Tags),
    ("reject-shallow", Line::RejectShallow),
    ("without", Line::Without),
    ("no-pack", Line::NoPack),
    ("interrupt-at", Line::InterruptAt),
    ("store-fails", Line::StoreFails),
];

static TAGS: [(&str, Tags); 2] = [("all", Tags::All), ("included", Tags::Included)];

// The features that a command table lacks.
#[derive(Clone, Copy)]
enum Lack {
    SidebandAll,
    RefInWant,
    Both,
    // Everything that recorded requests don't have.
    Recorded,
}

static LACKS: [(&str, Lack); 4] = [
    ("sideband-all", Lack::SidebandAll),
    ("ref-in-want", Lack::RefInWant),
    ("both", Lack::Both),
    ("recorded", Lack::Recorded),
];

/// The input of a fetch.
#[derive(Drop)]
pub(crate) struct Script<'a> {
    /// The lengths of the bodies.
    pub(crate) lengths: &'a [u8],
    pub(crate) specs: Vec<RefSpec>,
    /// The ids of the haves.
    pub(crate) haves: Vec<ObjectId>,
    pub(crate) boundary: Vec<ObjectId>,
    pub(crate) shallow: Shallow,
    /// The refs to exclude.
    pub(crate) excluded: Vec<PartialName>,
    /// The time of the oldest commits to fetch.
    pub(crate) cutoff: Option<i64>,
    /// Which tags to fetch.
    pub(crate) tags: Tags,
    /// The commands and features that the client uses.
    pub(crate) table: CommandTable,
    /// Whether shallow servers are rejected.
    pub(crate) rejects: bool,
    /// Whether the pack is copied.
    pub(crate) copies: bool,
    /// Which check for an interrupt is true.
    pub(crate) interrupt: u64,
    /// Which call of the store fails.
    pub(crate) call: u64,
    /// The error of that call.
    pub(crate) fault: Fault,
    /// Whether a line begins with an unknown word.
    pub(crate) is_unknown: bool,
}

static RECORDED: [(&str, Option<&str>); 4] = [
    ("multi_ack_detailed", None),
    ("thin-pack", None),
    ("side-band-64k", None),
    ("ofs-delta", None),
];

// A table without these features.
fn table_of(lack: Lack) -> CommandTable {
    let mut table = CommandTable::git();
    match lack {
        Lack::SidebandAll => table.v2_fetch = &["shallow", "filter", "ref-in-want"],
        Lack::RefInWant => table.v2_fetch = &["shallow", "filter", "sideband-all"],
        Lack::Both => table.v2_fetch = &["shallow", "filter"],
        Lack::Recorded => table.v1_fetch = &RECORDED,
    }
    table
}

// A number, at most 32 bits.
fn small(text: &[u8]) -> u32 {
    match u32::try_from(number(text).unwrap_or(0)) {
        Ok(number) => number,
        Err(_) => u32::MAX,
    }
}

// A number in decimal digits, with or without a sign.
fn signed(text: &[u8]) -> Option<i64> {
    let Ok(text) = str::from_utf8(text) else {
        return None;
    };
    match text.parse::<i64>() {
        Ok(number) => Some(number),
        Err(_) => None,
    }
}

// A depth from the refs of the server.
fn depth_of(text: &[u8]) -> Shallow {
    match NonZeroU32::new(small(text)) {
        Some(depth) => Shallow::DepthAtRemote(depth),
        None => Shallow::NoChange,
    }
}

fn push_spec(alloc: Global, specs: &mut Vec<RefSpec>, text: &[u8]) -> Result<(), AllocError> {
    match parse(BStr::new(text), Operation::Fetch) {
        Ok(spec) => {
            specs.push(spec.to_owned(alloc)?)?;
            Ok(())
        }
        Err(_) => Ok(()),
    }
}

fn push_id(ids: &mut Vec<ObjectId>, text: &[u8]) -> Result<(), AllocError> {
    match ObjectId::from_hex(text) {
        Ok(id) => {
            ids.push(id)?;
            Ok(())
        }
        Err(_) => Ok(()),
    }
}

fn push_name(alloc: Global, names: &mut Vec<PartialName>, text: &[u8]) -> Result<(), AllocError> {
    match PartialName::new(BString::from_slice(alloc, text)?) {
        Ok(name) => {
            names.push(name)?;
            Ok(())
        }
        Err(_) => Ok(()),
    }
}

// Adds ids that begin with consecutive numbers.
fn push_many(ids: &mut Vec<ObjectId>, count: u32) -> Result<(), AllocError> {
    for number in 0..count {
        let [a, b, c, d] = number.to_be_bytes();
        let mut bytes = [7; 20];
        bytes[0] = a;
        bytes[1] = b;
        bytes[2] = c;
        bytes[3] = d;
        ids.push(ObjectId { bytes })?;
    }
    Ok(())
}

impl<'a> Script<'a> {
    // The script of a clone.
    fn new(alloc: Global) -> Script<'a> {
        Script {
            lengths: &[],
            specs: Vec::new(alloc),
            haves: Vec::new(alloc),
            boundary: Vec::new(alloc),
            shallow: Shallow::NoChange,
            excluded: Vec::new(alloc),
            cutoff: None,
            tags: Tags::None,
            table: CommandTable::git(),
            rejects: false,
            copies: true,
            interrupt: u64::MAX,
            call: u64::MAX,
            fault: Fault::Device,
            is_unknown: false,
        }
    }

    // Sets the failing call of the store, and its error.
    fn refuse(&mut self, text: &[u8]) {
        let (call, why) = cut_at_byte(text, b' ');
        self.call = number(call).unwrap_or(u64::MAX);
        match meaning_of(&FAULTS, why) {
            Some(fault) => self.fault = fault,
            None => self.is_unknown = true,
        }
    }

    fn choose_tags(&mut self, text: &[u8]) {
        match meaning_of(&TAGS, text) {
            Some(tags) => self.tags = tags,
            None => self.is_unknown = true,
        }
    }

    fn choose_table(&mut self, text: &[u8]) {
        match meaning_of(&LACKS, text) {
            Some(lack) => self.table = table_of(lack),
            None => self.is_unknown = true,
        }
    }

    fn read_depth(&mut self, alloc: Global, line: Line, text: &[u8]) -> Result<(), AllocError> {
        match line {
            Line::Depth => self.shallow = depth_of(text),
            Line::Deepen => self.shallow = Shallow::Deepen(small(text)),
            Line::Since => self.cutoff = signed(text),
            Line::Exclude => push_name(alloc, &mut self.excluded, text)?,
            Line::Boundary => push_id(&mut self.boundary, text)?,
            _ => {}
        }
        Ok(())
    }

    fn read_line(&mut self, alloc: Global, line: Line, text: &'a [u8]) -> Result<(), AllocError> {
        match line {
            Line::Bodies => self.lengths = text,
            Line::Refspec => push_spec(alloc, &mut self.specs, text)?,
            Line::Have => push_id(&mut self.haves, text)?,
            Line::MoreHaves => push_many(&mut self.haves, small(text))?,
            Line::Tags => self.choose_tags(text),
            Line::RejectShallow => self.rejects = true,
            Line::Without => self.choose_table(text),
            Line::NoPack => self.copies = false,
            Line::InterruptAt => self.interrupt = number(text).unwrap_or(u64::MAX),
            Line::StoreFails => self.refuse(text),
            _ => self.read_depth(alloc, line, text)?,
        }
        Ok(())
    }

    /// Parses the lines up to the empty one. Returns the rest of the payload, too.
    pub(crate) fn read(
        alloc: Global,
        payload: &'a [u8],
    ) -> Result<(Script<'a>, &'a [u8]), AllocError> {
        let mut script = Script::new(alloc);
        let mut rest = payload;
        for _ in 0..u64::MAX {
            let (line, following) = cut_at_byte(rest, b'\n');
            rest = following;
            if line.is_empty() {
                break;
            }
            let (word, text) = cut_at_byte(line, b' ');
            match meaning_of(&LINES, word) {
                Some(line) => script.read_line(alloc, line, text)?,
                None => script.is_unknown = true,
            }
        }
        if !script.excluded.is_empty() {
            let remote_refs = std::mem::replace(&mut script.excluded, Vec::new(alloc));
            script.shallow = Shallow::Exclude {
                remote_refs,
                since_cutoff: script.cutoff,
            };
        } else if let Some(cutoff) = script.cutoff {
            script.shallow = Shallow::Since { cutoff };
        }
        Ok((script, rest))
    }
}
