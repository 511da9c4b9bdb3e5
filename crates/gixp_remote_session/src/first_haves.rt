//! Haves for a server that acknowledges only one commit.
ghost use Rattle.std.specs.Prelude.{◌≡◌, codes};
ghost use Rattle.gixp_fetch_common.specs.Failures.{FailureIsRefusal};

use crate::transport::HelperSession;
use gix_protocol::client::Fetched;
use gix_protocol::fetch::negotiate::{Graph, Negotiator, NegotiatorError, Noop, Objects};
use gix_protocol::transport::ObjectId;
use gixp_fetch_common::failure::Failure;
use gixp_fetch_common::listed_commits::{ListedCommits, Refusal};
use gixp_fetch_common::receive::PackReceiver;
use gixp_fetch_common::repository::KnownRepository;
use gixp_fetch_common::session::{MappedFetch, fetch};
use gixp_fetch_common::{Haves, PackPlace};
use std::alloc::Global;
use std::fs::File;
use std::io::BufReader;

// The most haves that fit into the first request together with `done`: one less than its window.
const MOST_HAVES: usize = 15;

/// Offers the first haves of a negotiator. They fit into the first request, which then also has
/// `done`. A server without `multi_ack` sends nothing between its first acknowledgement and the
/// client's `done` (gitprotocol-pack, "Packfile Negotiation").
#[derive(Drop)]
pub(crate) struct FirstHaves<N> {
    pub(crate) negotiator: N,
    // How many more may be offered.
    left: usize,
}

impl<N> FirstHaves<N> {
    /// Offers at most 15 haves of a negotiator.
    pub(crate) fn new(negotiator: N) -> FirstHaves<N>
        ensures left { result.left ≡ 15 }
        ensures negotiator { result.negotiator ≡ negotiator }
    {
        FirstHaves {
            negotiator,
            left: MOST_HAVES,
        }
    }
}

impl<N: Negotiator> Negotiator for FirstHaves<N> {
    ghost use Rattle.std.specs.Prelude.{◌≡◌};
    ghost use Rattle.std.proofs.Common.{arith};
    ghost use Rattle.gixp_remote_session.specs.FirstHaves.{OffersWithin};

    ghost calls = { record {
      count = λ n g. n.left;
      failures = λ n. N.calls.failures n.negotiator;
      knows = λ n g id m h. (m.left ≡ n.left) × N.calls.knows n.negotiator g id m.negotiator h;
      adds = λ n g id m h. (m.left ≡ n.left) × N.calls.adds n.negotiator g id m.negotiator h;
      learns = λ n g id m h. (m.left ≡ n.left) × N.calls.learns n.negotiator g id m.negotiator h;
      offers = λ n g have m h. OffersWithin n.left m.left have (N.calls.offers n.negotiator g have m.negotiator h) ((m ≡ n) × (h ≡ g));
      knowing_fails = λ n g id e m h. N.calls.knowing_fails n.negotiator g id e m.negotiator h;
      adding_fails = λ n g id e m h. N.calls.adding_fails n.negotiator g id e m.negotiator h;
      learning_fails = λ n g id e m h. N.calls.learning_fails n.negotiator g id e m.negotiator h;
      offering_fails = λ n g e m h. N.calls.offering_fails n.negotiator g e m.negotiator h;
    } };

    ghost reports_refusals = { N.reports_refusals };

    fn known_common<O: Objects>(
        &mut self,
        id: ObjectId,
        graph: &mut Graph<O>,
    ) -> Result<(), NegotiatorError> {
        self.negotiator.known_common(id, graph)
    }

    fn add_tip<O: Objects>(
        &mut self,
        id: ObjectId,
        graph: &mut Graph<O>,
    ) -> Result<(), NegotiatorError> {
        self.negotiator.add_tip(id, graph)
    }

    fn in_common_with_remote<O: Objects>(
        &mut self,
        id: ObjectId,
        graph: &mut Graph<O>,
    ) -> Result<(), NegotiatorError> {
        self.negotiator.in_common_with_remote(id, graph)
    }

    fn next_have<O: Objects>(
        &mut self,
        graph: &mut Graph<O>,
    ) -> Option<Result<ObjectId, NegotiatorError>> {
        if self.left == 0 {
            return None;
        }
        self.left -= 1;
        self.negotiator.next_have(graph)
    }

    ghost offer_lowers = { λ n g id m h r. Prim.omega (arith, r.0) };

    ghost none_keeps = { λ n g m h r. r.0 };

    ghost learning_keeps = { λ n g id m h r. Prim.omega (arith, r.0) };
}

// The failure of a fetch whose commits are listed in a text.
fn listed_failure(alloc: Global, refusal: Option<Refusal>, failure: Failure) -> Failure
    ensures { FailureIsRefusal (codes "commits") refusal failure result }
{
    match refusal {
        Some(Refusal::Read(kind)) => Failure::of_file(alloc, "commits", kind),
        Some(Refusal::Line(line)) => Failure::of_line(alloc, "commits", line),
        None => failure,
    }
}

// Offers the first commits of a text.
fn fetch_listed<P: PackPlace>(
    alloc: Global,
    session: &mut HelperSession<'_>,
    repository: &mut KnownRepository,
    asked: MappedFetch<'_>,
    commits: File,
    pack: &mut PackReceiver<P>,
) -> Result<Fetched, Failure> {
    let text = BufReader::new(alloc, commits).map_err(|_| Failure::Memory)?;
    let listed = ListedCommits::new(alloc, text, repository.tips.take());
    let mut negotiator = FirstHaves::new(listed);
    match fetch(alloc, session, repository, &mut negotiator, asked, pack) {
        Ok(fetched) => Ok(fetched),
        Err(e) => Err(listed_failure(alloc, negotiator.negotiator.refusal(), e)),
    }
}

/// Fetches with at most 15 haves, all in the first request.
pub(crate) fn fetch_with_first<P: PackPlace>(
    alloc: Global,
    session: &mut HelperSession<'_>,
    repository: &mut KnownRepository,
    asked: MappedFetch<'_>,
    commits: Option<File>,
    pack: &mut PackReceiver<P>,
) -> Result<Fetched, Failure> {
    match (commits, asked.haves) {
        (Some(commits), _) => fetch_listed(alloc, session, repository, asked, commits, pack),
        (None, Haves::By(algorithm)) => {
            let mut negotiator = FirstHaves::new(algorithm.negotiator(alloc));
            fetch(alloc, session, repository, &mut negotiator, asked, pack)
        }
        (None, Haves::InOrder) => { fetch(alloc, session, repository, &mut Noop, asked, pack) }
    }
}
