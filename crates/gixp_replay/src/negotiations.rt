//! A negotiation: the action, the complete commits, the wants, and the haves of each round.
//!
//! Settings: `shallow=no` keeps the shallow boundary; `depth` is `by` commits from the refs, `deepen` is `by` more commits, `since`
//! the commits since the time `by`, `exclude` the commits that a ref doesn't reach. `tags` is the tag mode. `over=bodies` is
//! version 2 over bodies in memory, `bodies-1` version 1 over such bodies, `connection` version 1 over a connection. `ref-in-want`
//! says whether the client can want refs by name. `offer-fails` is the number of the negotiator's call that fails, `fail-at` that
//! of the look-up of a commit. Both count from 1; 0 means none. The module `histories` describes the payload. A round that fails is
//! repeated once.
use crate::handshakes::{bodies, connection};
use crate::histories::History;
use crate::report::Report;
use crate::rows::{NO_YES, Row, Setting};
use crate::values::client_error;
use gixp_doubles::{Device, LentObjects, MemoryObjects, MemoryRefs, Recorder};
use gixp_graph::{Find, Flags, Graph, Objects};
use gixp_hash::ObjectId;
use gixp_negotiate::negotiate::negotiation::{NegotiateContext, Negotiation};
use gixp_negotiate::negotiate::one_round::State;
use gixp_negotiate::negotiate::{Action, Error, Negotiate, Round};
use gixp_packetline::{PacketLine, Protocol, split_packet_line};
use gixp_refmap::fetch::Tags;
use gixp_requests::command::CommandTable;
use gixp_requests::fetch::Arguments;
use gixp_response::fetch::Response;
use gixp_shallow::Shallow;
use gixp_transport::Transport;
use std::alloc::{AllocError, Global};
use std::mem;
use std::num::NonZeroU32;

pub(crate) const SETTINGS: &[Setting] = &[
    ("shallow", &["no", "depth", "deepen", "since", "exclude"], 0),
    ("by", &[], 0),
    ("tags", &["all", "included", "none"], 2),
    ("over", &["bodies", "bodies-1", "connection"], 0),
    ("ref-in-want", NO_YES, 0),
    ("offer-fails", &[], 0),
];

// The error of alternates that can't be opened.
#[derive(Drop)]
struct Closed {}

// The number in an id.
fn number_of(id: &ObjectId) -> u64 {
    let [_, _, _, _, _, _, _, _, _, _, _, _, a, b, c, d, e, f, g, h] = id.bytes;
    u64::from_be_bytes([a, b, c, d, e, f, g, h])
}

fn report_ids(ids: &[ObjectId], report: &mut Report) {
    for id in ids {
        report.number(number_of(id));
        report.word(" ");
    }
}

fn report_error(report: &mut Report, e: &Error<Closed>) {
    match e {
        Error::NegotiationFailed { rounds } => {
            report.word("NegotiationFailed ");
            report.number(*rounds as u64);
        }
        Error::LookupCommitInGraph(e) => {
            report.word("LookupCommitInGraph(");
            report.debug(e);
            report.word(")");
        }
        Error::OpenPackedRefsBuffer => report.word("OpenPackedRefsBuffer"),
        Error::IO(of) => {
            report.word("IO(");
            report.debug(of);
            report.word(")");
        }
        Error::InitRefIter => report.word("InitRefIter"),
        Error::PeelToId => report.word("PeelToId"),
        Error::AlternateRefsAndObjects(_) => report.word("AlternateRefsAndObjects"),
        Error::Memory => report.word("Memory"),
    }
    report.word(" ");
}

// The known targets, if there is something to negotiate.
fn report_action(
    report: &mut Report,
    action: Result<Action, Error<Closed>>,
) -> Result<Option<Vec<bool>>, AllocError> {
    match action {
        Ok(Action::NoChange) => report.word("NoChange "),
        Ok(Action::SkipToRefUpdate) => report.word("SkipToRefUpdate "),
        Ok(
            Action::MustNegotiate {
                remote_ref_target_known,
            },
        ) => {
            report.word("MustNegotiate ");
            for is_known in &remote_ref_target_known {
                report.word(if *is_known { "1" } else { "0" });
            }
            report.word(" ");
            return Ok(Some(remote_ref_target_known));
        }
        Err(e) => report_error(report, &e),
    }
    Ok(None)
}

// A line of a request. The number of an id replaces the id at its end.
fn report_line(report: &mut Report, line: &[u8]) {
    let line = line.strip_suffix(b"\n").unwrap_or(line);
    let (front, back) = line.split_at(line.len().saturating_sub(40));
    match ObjectId::from_hex(back) {
        Ok(id) => {
            report.word(str::from_utf8(front).unwrap_or("?"));
            report.number(number_of(&id));
        }
        Err(_) => report.word(str::from_utf8(line).unwrap_or("?")),
    }
    report.word(" ");
}

fn report_requests(report: &mut Report, bytes: &[u8]) {
    let mut rest = bytes;
    for _ in 0..bytes.len() {
        let Ok(Some((line, following))) = split_packet_line(rest) else {
            break;
        };
        rest = following;
        match line {
            PacketLine::Data(text) => report_line(report, text),
            _ => report.word("/ "),
        }
    }
}

fn report_round(report: &mut Report, round: Round, is_last: bool) {
    report.word("round ");
    report.number(round.haves_to_send as u64);
    report.word(" ");
    report.number(round.haves_sent as u64);
    report.word(" ");
    report.number(round.in_vain as u64);
    report.word(if round.previous_response_had_at_least_one_in_common {
        " common"
    } else {
        ""
    });
    report.word(if is_last { " last " } else { " " });
}

// Sends a request, if there is something to send.
fn send<T: Transport>(report: &mut Report, asked: &mut Arguments, transport: &mut T, done: bool) {
    if !done && !asked.has_haves() {
        return;
    }
    if let Err(e) = asked.send(transport, done) {
        client_error(report, &e);
    }
}

// Runs a round, again if it fails. Returns whether another one follows.
fn run_round<N: Negotiate<AlternatesError = Closed>, T: Transport>(
    report: &mut Report,
    negotiation: &mut N,
    state: &mut State,
    asked: &mut Arguments,
    transport: &mut T,
    previous: Option<&Response>,
) -> bool {
    for _ in 0..2usize {
        if state.haves_to_send == 0 {
            return false;
        }
        match negotiation.one_round(state, asked, previous) {
            Ok((round, is_last)) => {
                report_round(report, round, is_last);
                send(report, asked, transport, is_last);
                return !is_last;
            }
            Err(e) => report_error(report, &e),
        }
    }
    false
}

// Runs all rounds for which there are responses.
fn run_rounds<N: Negotiate<AlternatesError = Closed>, T: Transport>(
    report: &mut Report,
    negotiation: &mut N,
    state: &mut State,
    asked: &mut Arguments,
    transport: &mut T,
    answers: &[Response],
) {
    let mut goes_on = run_round(report, negotiation, state, asked, transport, None);
    for answer in answers {
        if !goes_on {
            break;
        }
        goes_on = run_round(report, negotiation, state, asked, transport, Some(answer));
    }
}

// Adds the wants, and runs the rounds.
fn run_over<N: Negotiate<AlternatesError = Closed>, T: Transport>(
    alloc: Global,
    row: &Row<'_>,
    negotiation: &mut N,
    known: &[bool],
    transport: &mut T,
    answers: &[Response],
    report: &mut Report,
) -> Result<(), AllocError> {
    let [_, _, _, over, by_name, _] = row.settings;
    let mut features = Vec::new(alloc);
    if by_name == 1 {
        features.push(("ref-in-want", None))?;
    }
    let version = if over == 0 {
        Protocol::V2
    } else {
        Protocol::V1
    };
    let mut asked = Arguments::new(alloc, &CommandTable::git(), version, features)?;
    match negotiation.add_wants(&mut asked, known) {
        Ok(true) => report.word("wants "),
        Ok(false) => {
            report.word("nothing ");
            return Ok(());
        }
        Err(e) => {
            report_error(report, &e);
            return Ok(());
        }
    }
    let persists = transport.connection_persists_across_multiple_requests();
    let is_stateless = asked.is_stateless(!persists);
    let mut state = State::new(alloc, is_stateless);
    run_rounds(
        report,
        negotiation,
        &mut state,
        &mut asked,
        transport,
        answers,
    );
    Ok(())
}

// The same, with the requests sent.
fn negotiate<N: Negotiate<AlternatesError = Closed>>(
    alloc: Global,
    row: &Row<'_>,
    negotiation: &mut N,
    answers: &[Response],
    report: &mut Report,
) -> Result<(), AllocError> {
    let action = negotiation.mark_complete_and_common_ref(alloc);
    let Some(known) = report_action(report, action)? else {
        return Ok(());
    };
    let [_, _, _, over, ..] = row.settings;
    if over == 2 {
        let device = Device::new(b"", usize::MAX);
        let mut transport = connection(alloc, device, 1, None)?;
        run_over(
            alloc,
            row,
            negotiation,
            &known,
            &mut transport,
            answers,
            report,
        )?;
        report.word("> ");
        report_requests(report, &transport.writer().bytes);
        return Ok(());
    }
    let mut transport = bodies(alloc, Vec::new(alloc))?;
    run_over(
        alloc,
        row,
        negotiation,
        &known,
        &mut transport,
        answers,
        report,
    )?;
    for request in transport.sent() {
        report.word("> ");
        report_requests(report, request);
    }
    Ok(())
}

fn shallow_of(alloc: Global, row: &Row<'_>) -> Shallow {
    let [form, number, ..] = row.settings;
    let depth = u32::try_from(number).unwrap_or(u32::MAX);
    match form {
        0 => Shallow::NoChange,
        1 => match NonZeroU32::new(depth) {
            Some(depth) => Shallow::DepthAtRemote(depth),
            None => Shallow::undo(),
        },
        2 => Shallow::Deepen(depth),
        3 => Shallow::Since {
            cutoff: i64::from(depth),
        },
        _ => Shallow::Exclude {
            remote_refs: Vec::new(alloc),
            since_cutoff: None,
        },
    }
}

fn tags_of(row: &Row<'_>) -> Tags {
    let [_, _, tags, ..] = row.settings;
    match tags {
        0 => Tags::All,
        1 => Tags::Included,
        _ => Tags::None,
    }
}

// The commits of the graph, and those with the mark.
fn report_marks<G: Objects>(graph: &Graph<G>, ids: &[ObjectId], report: &mut Report) {
    report.word("held ");
    for id in ids {
        if let Some((_, flags)) = graph.get(id) {
            report.number(number_of(id));
            report.word(if flags.0 & Flags::COMPLETE.0 == 0 {
                " "
            } else {
                "+ "
            });
        }
    }
}

// The ids that were looked up, in order. Commits that were read twice have a mark.
fn report_looks(
    alloc: Global,
    objects: &mut MemoryObjects,
    report: &mut Report,
) -> Result<(), AllocError> {
    report.word("looked ");
    objects.looked_up.sort()?;
    let mut last = None;
    for id in &objects.looked_up {
        if last == Some(*id) {
            if let Ok(Some(_)) = objects.objects.find_commit(alloc, id) {
                report.word("twice ");
            }
            continue;
        }
        last = Some(*id);
        report.number(number_of(id));
        report.word(" ");
    }
    Ok(())
}

// The refs of the alternates, if they can be opened.
fn opened(alternates: &mut [MemoryRefs], can_be_opened: bool) -> Result<&mut [MemoryRefs], Closed> {
    if can_be_opened {
        Ok(alternates)
    } else {
        Err(Closed {})
    }
}

// Runs the negotiation over its repository.
fn run_graph<G: Objects>(
    alloc: Global,
    row: &Row<'_>,
    history: &mut History,
    graph: &mut Graph<G>,
    recorder: &mut Recorder,
    report: &mut Report,
) -> Result<(), AllocError> {
    let shallow = shallow_of(alloc, row);
    let tags = tags_of(row);
    let context = NegotiateContext {
        objects: &history.existing,
        refs: &mut history.refs,
        alternates: opened(&mut history.alternates, history.has_alternates),
        negotiator: recorder,
        graph,
    };
    let mut negotiation = Negotiation::new(context, &history.map, &shallow, tags);
    negotiate(alloc, row, &mut negotiation, &history.answers, report)
}

// The same, with the content of the graph.
fn run_history(
    alloc: Global,
    row: &Row<'_>,
    history: &mut History,
    objects: &mut MemoryObjects,
    recorder: &mut Recorder,
    report: &mut Report,
) -> Result<(), AllocError> {
    let mut graph = Graph::new(alloc, LentObjects { objects });
    run_graph(alloc, row, history, &mut graph, recorder, report)?;
    report_marks(&graph, &history.ids, report);
    Ok(())
}

/// The action, the requests, and the state of the commits after them.
pub(crate) fn report_negotiation(
    alloc: Global,
    row: &Row<'_>,
    report: &mut Report,
) -> Result<(), AllocError> {
    let mut history = History::of_text(alloc, row.payload, row.fail_at)?;
    report.is_unknown |= history.is_unknown;
    let mut objects = mem::replace(&mut history.objects, MemoryObjects::new(alloc));
    let haves = Vec::from_slice(alloc, &history.haves)?;
    let mut recorder = Recorder::new(alloc, haves);
    let [_, _, _, _, _, offer] = row.settings;
    if offer > 0 {
        recorder.calls = offer - 1;
    }
    run_history(
        alloc,
        row,
        &mut history,
        &mut objects,
        &mut recorder,
        report,
    )?;
    report_looks(alloc, &mut objects, report)?;
    report.word("known ");
    report_ids(&recorder.known, report);
    report.word("tips ");
    report_ids(&recorder.tips, report);
    report.word("common ");
    report_ids(&recorder.common, report);
    Ok(())
}
