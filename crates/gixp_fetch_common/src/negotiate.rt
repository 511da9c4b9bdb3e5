//! The fetch of what is mapped, by the negotiator that the caller chooses.
ghost use Rattle.gixp_fetch_common.specs.Failures.{FailureIsRefusal};

use crate::failure::Failure;
use crate::haves::Haves;
use crate::listed_commits::{ListedCommits, Refusal};
use crate::pack_place::PackPlace;
use crate::receive::PackReceiver;
use crate::repository::KnownRepository;
use crate::session::{MappedFetch, fetch};
use gix_protocol::client::{Fetched, Listener, Session};
use gix_protocol::fetch::negotiate::Noop;
use gix_protocol::transport::{NestedProgress, Transport};
use std::alloc::Global;
use std::fs::File;
use std::io::BufReader;

// The failure of a fetch whose negotiator reads a text of commits.
fn commits_failure(alloc: Global, path: &str, refusal: Option<Refusal>, failure: Failure) -> Failure
    ensures { FailureIsRefusal path.now refusal failure result }
{
    match refusal {
        Some(Refusal::Read(kind)) => Failure::of_file(alloc, path, kind),
        Some(Refusal::Line(line)) => Failure::of_line(alloc, path, line),
        None => failure,
    }
}

/// Fetches the mapped refs, and offers the commits of a text in its order. The caller opens the file: a program that writes it to a
/// pipe starts once the pipe is open.
pub fn offer_in_order<
    T: Transport + Drop,
    L: Listener + Drop,
    S: NestedProgress + Drop,
    P: PackPlace,
>(
    alloc: Global,
    session: &mut Session<T, L, S>,
    repository: &mut KnownRepository,
    asked: MappedFetch<'_>,
    path: &str,
    file: File,
    pack: &mut PackReceiver<P>,
) -> Result<Fetched, Failure>
where
    S::SubProgress: Drop,
{
    let text = BufReader::new(alloc, file).map_err(|_| Failure::Memory)?;
    let mut negotiator = ListedCommits::new(alloc, text, repository.tips.take());
    match fetch(alloc, session, repository, &mut negotiator, asked, pack) {
        Ok(fetched) => Ok(fetched),
        Err(e) => Err(commits_failure(alloc, path, negotiator.refusal(), e)),
    }
}

/// Fetches the mapped refs, with the haves that the caller chose.
pub fn negotiate<T: Transport + Drop, L: Listener + Drop, S: NestedProgress + Drop, P: PackPlace>(
    rt: &HostRuntime,
    session: &mut Session<T, L, S>,
    repository: &mut KnownRepository,
    asked: MappedFetch<'_>,
    pack: &mut PackReceiver<P>,
) -> Result<Fetched, Failure>
where
    S::SubProgress: Drop,
{
    let alloc = rt.alloc();
    match (asked.haves, asked.commits) {
        (Haves::By(algorithm), _) => {
            let mut negotiator = algorithm.negotiator(alloc);
            fetch(alloc, session, repository, &mut negotiator, asked, pack)
        }
        (Haves::InOrder, Some(path)) => {
            let file = File::open(rt, path).map_err(|e| Failure::of_file(alloc, path, e.kind()))?;
            offer_in_order(alloc, session, repository, asked, path, file, pack)
        }
        (Haves::InOrder, None) => fetch(alloc, session, repository, &mut Noop, asked, pack),
    }
}
