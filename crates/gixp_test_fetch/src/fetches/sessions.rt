//! Whole fetches over bodies and connections, and their failures.
use crate::fetches::consumers::{ConsumerAnswer, Taste};
use crate::fetches::repository::{Repository, sound};
use crate::fetches::runs::{V1, V2, joined, run};
use crate::transports;
use crate::transports::memory;
use gixp_doubles::{Device, Paper, ProgressLog};
use gixp_fetch::consume::{ConsumePack, CopyError, CopyPack, ReadToEnd};
use gixp_graph::{ObjectError, RefStoreError};
use gixp_packetline::{ExtendedBufRead, MessageKind, Protocol};
use gixp_progress::Discard;
use gixp_shallow::{Shallow, ShallowMemory, ShallowStore};
use gixp_transport::{Connection, Transport};
use std::alloc::{AllocError, Global};
use std::io::ErrorKind;
use std::num::NonZeroU32;
use std::test::Fail;

// A depth of one commit.
fn depth() -> Shallow {
    Shallow::DepthAtRemote(NonZeroU32::MIN)
}

// The result of a fetch of depth 1, with the boundary after it.
fn fetch_by<T: Transport, C: ConsumePack<Discard, Error = CopyError>>(
    alloc: Global,
    transport: &mut T,
    repository: Repository,
    consumer: &mut C,
) -> Result<String, AllocError> {
    let mut store = ShallowMemory::new(Vec::new(alloc));
    let text = run(
        alloc,
        transport,
        repository,
        consumer,
        &mut Discard,
        &mut store,
        depth(),
    )?;
    let ids = store.ids().len();
    let locked = store.is_locked();
    format!(in alloc; "{text}, {ids} at the boundary, locked {locked}")
}

const DONE: &str = "2 rounds, 1 at the boundary, locked false";

// The result of a fetch over bodies, and where the transport stopped.
fn fetch_bodies<C: ConsumePack<Discard, Error = CopyError>>(
    alloc: Global,
    answers: &[&[u8]],
    repository: Repository,
    consumer: &mut C,
) -> Result<(String, Option<MessageKind>), AllocError> {
    let mut transport = memory(alloc, answers)?;
    let text = fetch_by(alloc, &mut transport, repository, consumer)?;
    Ok((text, transport.stopped_at()))
}

// The result of a fetch over bodies that copies the pack, with the pack.
fn copy_pack(
    alloc: Global,
    answers: &[&[u8]],
) -> Result<(String, Vec<u8>, Option<MessageKind>), AllocError> {
    let mut consumer = CopyPack {
        writer: Vec::new(alloc),
    };
    let (text, stop) = fetch_bodies(alloc, answers, sound(alloc, 20)?, &mut consumer)?;
    Ok((text, consumer.writer, stop))
}

#[test]
fn fetches_over_bodies(rt: HostRuntime) -> Result<(), Fail> {
    for answers in [V1.as_slice(), V2.as_slice()] {
        let (text, pack, stop) = copy_pack(rt.alloc(), answers)?;
        assert_eq!(rt; text.as_str(), DONE);
        assert_eq!(rt; pack.as_slice(), b"PAC".as_slice());
        assert_eq!(rt; stop, Some(MessageKind::Flush));
    }
    Ok(())
}

// A connection whose writes and reads fail at these calls.
fn connection<'a>(
    alloc: Global,
    bytes: &'a [u8],
    reads: u64,
    writes: u64,
) -> Result<Connection<Device<'a>, Paper>, AllocError> {
    let device = Device::failing(bytes, 16, reads, ErrorKind::TimedOut);
    let paper = Paper::failing(alloc, 16, writes, ErrorKind::BrokenPipe);
    transports::connection(alloc, device, paper, Protocol::V2, None)
}

// The result of a fetch over a connection, or of its handshake.
fn fetch_over(
    alloc: Global,
    answers: &[&[u8]],
    reads: u64,
    writes: u64,
) -> Result<String, AllocError> {
    let stream = joined(alloc, answers)?;
    let mut transport = connection(alloc, &stream, reads, writes)?;
    fetch_by(alloc, &mut transport, sound(alloc, 20)?, &mut ReadToEnd)
}

#[test]
fn fetches_over_connections(rt: HostRuntime) -> Result<(), Fail> {
    for answers in [V1.as_slice(), V2.as_slice()] {
        let text = fetch_over(rt.alloc(), answers, u64::MAX, u64::MAX)?;
        assert_eq!(rt; text.as_str(), DONE);
    }
    Ok(())
}

// Whether a text has this error, and no lock is held.
fn reports_of(text: &str, error: &str) -> bool {
    text.contains(error) && !text.contains("locked true")
}

// How many reads these responses take.
fn count_reads(alloc: Global, answers: &[&[u8]]) -> Result<u64, AllocError> {
    let stream = joined(alloc, answers)?;
    Ok((stream.len() as u64).div_ceil(16))
}

#[test]
fn reports_each_read_that_fails(rt: HostRuntime) -> Result<(), Fail> {
    for answers in [V1.as_slice(), V2.as_slice()] {
        for reads in 0..count_reads(rt.alloc(), answers)? {
            let text = fetch_over(rt.alloc(), answers, reads, u64::MAX)?;
            assert!(rt; reports_of(text.as_str(), "TimedOut"), "{reads}: {text}");
        }
    }
    Ok(())
}

#[test]
fn reports_each_write_that_fails(rt: HostRuntime) -> Result<(), Fail> {
    for answers in [V1.as_slice(), V2.as_slice()] {
        for writes in 0..60u64 {
            let text = fetch_over(rt.alloc(), answers, u64::MAX, writes)?;
            assert!(rt;
                reports_of(text.as_str(), "Io(BrokenPipe)"),
                "{writes}: {text}"
            );
        }
    }
    Ok(())
}

// The result of a fetch with this consumer, where the transport stopped, and the byte of the pack.
fn taste(
    alloc: Global,
    answers: &[&[u8]],
    repository: Repository,
    polls: ConsumerAnswer,
) -> Result<(String, Option<MessageKind>, [u8; 1]), AllocError> {
    let mut consumer = Taste { polls, byte: [0] };
    let (text, stop) = fetch_bodies(alloc, answers, repository, &mut consumer)?;
    Ok((text, stop, consumer.byte))
}

#[test]
fn leaves_what_a_consumer_leaves(rt: HostRuntime) -> Result<(), Fail> {
    for (polls, want, stop) in [
        (ConsumerAnswer::ReadOn, DONE, Some(MessageKind::Flush)),
        (ConsumerAnswer::Leave, DONE, None),
        (
            ConsumerAnswer::Refuse,
            "ConsumePack(Write(Other)), 0 at the boundary, locked false",
            None,
        ),
    ] {
        let (text, stopped_at, byte) = taste(rt.alloc(), &V2, sound(rt.alloc(), 20)?, polls)?;
        assert_eq!(rt; text.as_str(), want);
        assert_eq!(rt; byte, [b'P']);
        assert_eq!(rt; stopped_at, stop);
    }
    Ok(())
}

// A pack that the server ends with an error.
const REFUSED: &[u8] = b"000dpackfile\n0007\x01PA0011ERR no access0006\x01C0000";

#[test]
fn reports_what_follows_a_consumer(rt: HostRuntime) -> Result<(), Fail> {
    let [greeting, refs, ..] = V2;
    for (polls, want) in [
        (
            ConsumerAnswer::ReadOn,
            "ReadRemainingBytes(Server { message: \"no access\" }), 0 at the boundary, locked false",
        ),
        (
            ConsumerAnswer::Leave,
            "1 rounds, 0 at the boundary, locked false",
        ),
    ] {
        let (text, _, _) = taste(
            rt.alloc(),
            &[greeting, refs, REFUSED],
            sound(rt.alloc(), 0)?,
            polls,
        )?;
        assert_eq!(rt; text.as_str(), want);
    }
    Ok(())
}

// The result of a fetch whose pack goes to a writer that fails.
fn fetch_to_paper(alloc: Global, fails: u64) -> Result<String, AllocError> {
    let mut consumer = CopyPack {
        writer: Paper::failing(alloc, 16, fails, ErrorKind::BrokenPipe),
    };
    let (text, _) = fetch_bodies(alloc, &V2, sound(alloc, 20)?, &mut consumer)?;
    Ok(text)
}

#[test]
fn reports_a_writer_that_takes_no_pack(rt: HostRuntime) -> Result<(), Fail> {
    for fails in 0..2u64 {
        let text = fetch_to_paper(rt.alloc(), fails)?;
        let want = "ConsumePack(Write(BrokenPipe)), 0 at the boundary, locked false";
        assert_eq!(rt; text.as_str(), want);
    }
    Ok(())
}

// The result of a fetch with this store, and how many requests were sent.
fn fetch_into(alloc: Global, store: &mut ShallowMemory) -> Result<(String, usize), AllocError> {
    let mut transport = memory(alloc, &V2)?;
    let text = run(
        alloc,
        &mut transport,
        sound(alloc, 20)?,
        &mut ReadToEnd,
        &mut Discard,
        store,
        depth(),
    )?;
    Ok((text, transport.sent().len()))
}

// The same with a locked store, and whether it is locked afterwards.
fn fetch_into_locked(alloc: Global) -> Result<(String, usize, bool), Fail> {
    let mut store = ShallowMemory::new(Vec::new(alloc));
    store.lock()?;
    let (text, sent) = fetch_into(alloc, &mut store)?;
    Ok((text, sent, store.is_locked()))
}

#[test]
fn keeps_a_lock_that_is_there(rt: HostRuntime) -> Result<(), Fail> {
    let (text, sent, is_locked) = fetch_into_locked(rt.alloc())?;
    assert_eq!(rt; text.as_str(), "LockShallowFile(Locked)");
    assert!(rt; is_locked);
    assert_eq!(rt; sent, 1);
    Ok(())
}

// A repository where a look-up, a listing of refs or the negotiator fails.
fn failing(alloc: Global, part: usize, number: u64) -> Result<Repository, AllocError> {
    let mut repository = sound(alloc, 20)?;
    match part {
        0 => {
            repository.objects.calls = number;
            repository.objects.error = ObjectError::Io(ErrorKind::TimedOut);
        }
        1 => repository.recorder.calls = number,
        _ => repository.refs.error = Some(RefStoreError::Iter),
    }
    Ok(repository)
}

// The result of a fetch into such a repository.
fn fetch_failing(alloc: Global, part: usize, number: u64) -> Result<String, AllocError> {
    let repository = failing(alloc, part, number)?;
    let (text, _) = fetch_bodies(alloc, &V2, repository, &mut ReadToEnd)?;
    Ok(text)
}

#[test]
fn reports_each_call_of_the_repository_that_fails(rt: HostRuntime) -> Result<(), Fail> {
    for (part, calls, want) in [
        (0usize, 2u64, "Negotiate(LookupCommitInGraph(Io(TimedOut)))"),
        (1, 22, "Negotiate(LookupCommitInGraph(Corrupt))"),
        (2, 1, "Negotiate(InitRefIter)"),
    ] {
        for number in 0..calls {
            let text = fetch_failing(rt.alloc(), part, number)?;
            let is_logged = text.as_str().starts_with(want)
                && text.as_str().ends_with(" 0 at the boundary, locked false");
            assert!(rt; is_logged, "{part}, {number}: {text}");
        }
    }
    Ok(())
}

// The calls of a progress reporter during a fetch of three rounds.
const CALLS: &str = "steps\nhandshake\nstep\nstep\nlist refs\n\
    step\nnegotiate (round 1)\nstep\nnegotiate (round 2)\nstep\nnegotiate (round 3)\nstep\nreceiving pack\n";

// The result of a fetch of three rounds, with this progress reporter.
fn fetch_and_log(alloc: Global, reported: &mut ProgressLog) -> Result<String, AllocError> {
    let [greeting, refs, answer, last] = V2;
    let mut transport = memory(alloc, &[greeting, refs, answer, answer, last])?;
    let mut store = ShallowMemory::new(Vec::new(alloc));
    run(
        alloc,
        &mut transport,
        sound(alloc, 50)?,
        &mut ReadToEnd,
        reported,
        &mut store,
        depth(),
    )
}

#[test]
fn reports_each_round(rt: HostRuntime) -> Result<(), Fail> {
    let mut reported = ProgressLog::new(rt.alloc());
    assert_eq!(rt;
        fetch_and_log(rt.alloc(), &mut reported)?.as_str(),
        "3 rounds"
    );
    // If a name of the handshake can't be allocated, only its step is reported. For a name of a round or of the pack
    // the result is `Memory`.
    assert_eq!(rt;
        reported.lines(rt.alloc())?.as_str(),
        CALLS,
        "without an AllocError"
    );
    Ok(())
}
