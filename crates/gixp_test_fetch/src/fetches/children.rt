//! The parts of a progress reporter that a fetch adds: one for each sideband reader.
ghost use Rattle.std.specs.Prelude.{⊤, None};

use crate::fetches::repository::sound;
use crate::fetches::runs::{V2, run};
use crate::transports::memory;
use gixp_fetch::consume::ReadToEnd;
use gixp_progress::{Discard, NestedProgress, Progress};
use gixp_shallow::{Shallow, ShallowMemory};
use std::alloc::{AllocError, Global};
use std::test::Fail;

// Records its names, and the names and ids of its parts. It may fail to add a part.
#[derive(Drop)]
struct Family<'a> {
    sent: &'a mut Vec<u8>,
    refuses: bool,
}

impl Family<'_> {
    fn say(&mut self, text: &[u8]) {
        let _ = self.sent.extend_from_slice(text);
        let _ = self.sent.push(b'\n');
    }
}

impl Progress for Family<'_> {
    ghost reported = { λ old call new. ⊤ };

    ghost name_of = { λ p. None };

    fn init(&mut self, _max: Option<usize>, _unit: &'static str) {}

    fn step(&mut self) {}

    fn set(&mut self, _step: usize) {}

    fn set_name(&mut self, name: String) {
        self.say(name.as_bytes());
    }

    fn name(&self) -> Option<&str> {
        None
    }

    fn fail(&mut self, _message: String) {}
}

impl NestedProgress for Family<'_> {
    type SubProgress = Discard;

    ghost adds = { λ old name id child new. ⊤ };

    fn add_child_with_id(&mut self, name: &str, id: [u8; 4]) -> Result<Discard, AllocError> {
        self.say(name.as_bytes());
        self.say(&id);
        if self.refuses {
            return Err(AllocError);
        }
        Ok(Discard)
    }
}

// The result of a fetch of depth 1, whose reporter records these lines.
fn fetch_and_log(
    alloc: Global,
    answers: &[&[u8]],
    refuses: bool,
    sent: &mut Vec<u8>,
) -> Result<String, AllocError> {
    let mut transport = memory(alloc, answers)?;
    let mut store = ShallowMemory::new(Vec::new(alloc));
    let mut family = Family { sent, refuses };
    run(
        alloc,
        &mut transport,
        sound(alloc, 50)?,
        &mut ReadToEnd,
        &mut family,
        &mut store,
        Shallow::undo(),
    )
}

// The recorded lines, then the result of the fetch.
fn reported(alloc: Global, answers: &[&[u8]], refuses: bool) -> Result<Vec<u8>, AllocError> {
    let mut sent = Vec::with_capacity(alloc, 1000)?;
    let text = fetch_and_log(alloc, answers, refuses, &mut sent)?;
    sent.extend_from_slice(text.as_bytes())?;
    Ok(sent)
}

const ROUNDS: &str = "handshake\nlist refs\n\
    negotiate (round 1)\nnegotiate (round 2)\nnegotiate (round 3)\nreceiving pack\nremote\nFERP\n";

#[test]
fn one_part_where_bands_begin_with_the_pack(rt: HostRuntime) -> Result<(), Fail> {
    let [greeting, refs, answer, last] = V2;
    let answers = [greeting, refs, answer, answer, last];
    let sent = reported(rt.alloc(), &answers, false)?;
    let sent = str::from_utf8(&sent)?;
    assert_eq!(rt;
        sent.strip_suffix("3 rounds"),
        Some(ROUNDS),
        "without an AllocError"
    );
    Ok(())
}

#[test]
fn no_round_needs_a_part(rt: HostRuntime) -> Result<(), Fail> {
    let [greeting, refs, answer, last] = V2;
    let answers = [greeting, refs, answer, answer, last];
    let sent = reported(rt.alloc(), &answers, true)?;
    let sent = str::from_utf8(&sent)?;
    assert_eq!(rt;
        sent.strip_suffix("Memory"),
        Some(ROUNDS),
        "without an AllocError"
    );
    Ok(())
}

// A server with `sideband-all`, a response without a pack, and one with it.
const BANDED: [&[u8]; 3] = [
    b"000eversion 2\n0013ls-refs=unborn\n001ffetch=shallow sideband-all\n0000",
    b"0015\x01acknowledgments\n0032\x01ACK cccccccccccccccccccccccccccccccccccccccc\n0007\x02hi0000",
    b"0012\x01shallow-info\n0036\x01shallow cccccccccccccccccccccccccccccccccccccccc\n\
    0001000e\x01packfile\n0007\x01PA0007\x02hi0006\x01C0000",
];

#[test]
fn a_part_for_each_banded_round(rt: HostRuntime) -> Result<(), Fail> {
    let [_, refs, ..] = V2;
    let [greeting, answer, last] = BANDED;
    let answers = [greeting, refs, answer, answer, last];
    let sent = reported(rt.alloc(), &answers, false)?;
    let want = "handshake\nlist refs\n\
        negotiate (round 1)\nremote\nFERP\nnegotiate (round 2)\nremote\nFERP\n\
        negotiate (round 3)\nremote\nFERP\nreceiving pack\n3 rounds";
    assert_eq!(rt; str::from_utf8(&sent)?, want, "without an AllocError");
    Ok(())
}

#[test]
fn no_part_where_nothing_is_asked_for(rt: HostRuntime) -> Result<(), Fail> {
    let [greeting, ..] = V2;
    let sent = reported(rt.alloc(), &[greeting, b"0000"], false)?;
    let want = "handshake\nlist refs\nnothing";
    assert_eq!(rt; str::from_utf8(&sent)?, want, "without an AllocError");
    Ok(())
}
