//! A ref map: from a handshake, or from a list of refs if the handshake has none.
//!
//! Settings: `over`, the kind of transport; `version`, which a client of a connection asks for. `by=obtain` makes one call.
//! Otherwise the list is prepared first: by `prepare` with the prefixes of the refspecs, by `prepare-all` without them, by
//! `prepare-twice` twice with them. `without=unborn` and `without=ref-prefix` are command tables without these. `without=agent` is
//! a client whose agent feature the server doesn't have. `letters` is the number of letters after the agent. The payload is a line
//! of refspecs, a line of those for this fetch only, a line of bodies as `bodies_of` reads them, and the server's bytes.
use crate::lines::report_rest;
use crate::map_values::{init_error, report_map};
use crate::maps::context_of;
use crate::report::Report;
use crate::reporting::Reporting;
use crate::rows::{BODIES_CONNECTION, Row, Setting, cut_at_byte};
use crate::shakes::{Helper, bodies_of, connection, memory, shake_error};
use gixp_handshake::Handshake;
use gixp_handshake::credentials::Action;
use gixp_handshake::handshake::{ObtainRefMap, handshake, obtain};
use gixp_packetline::{PacketLine, split_packet_line};
use gixp_refmap::RefMap;
use gixp_refmap::refmap::init::{Context, Error};
use gixp_requests::command::{CommandTable, Feature};
use gixp_transport::{Service, Transport};
use std::alloc::{AllocError, Global};

pub(crate) const SETTINGS: &[Setting] = &[
    ("over", BODIES_CONNECTION, 0),
    ("version", &[], 2),
    (
        "by",
        &["obtain", "prepare", "prepare-all", "prepare-twice"],
        0,
    ),
    ("without", &["nothing", "unborn", "ref-prefix", "agent"], 0),
    ("letters", &[], 0),
];

#[derive(Clone, Copy)]
struct Client {
    // How to make the ref map.
    way: u64,
    table: CommandTable,
    name: &'static str,
    letters: u64,
}

impl Client {
    fn of_row(row: &Row<'_>) -> Client {
        let [_, _, way, fault, letters, _] = row.settings;
        let mut table = CommandTable::git();
        match fault {
            1 => table.ls_refs_prefixes = &["symrefs", "peel", "ref-prefix "],
            2 => table.ls_refs_prefixes = &["symrefs", "peel", "unborn"],
            _ => {}
        }
        let name = if fault == 3 { "no-such" } else { "agent" };
        Client {
            way,
            table,
            name,
            letters,
        }
    }

    // The feature of the agent.
    fn agent(&self, alloc: Global) -> Result<Feature, AllocError> {
        let mut value = String::from_str(alloc, "git/replay")?;
        for _ in 0..self.letters {
            value.push_str("x")?;
        }
        Ok((self.name, Some(value)))
    }
}

fn prepared_word(prepared: &ObtainRefMap<'_>) -> &'static str {
    match prepared {
        ObtainRefMap::Existing(_) => "existing ",
        ObtainRefMap::LsRefsCommand(_, _) => "command ",
    }
}

// Prepares a map without fetching it.
fn prepare_alone(
    alloc: Global,
    shaken: &mut Handshake,
    client: Client,
    context: Context,
    report: &mut Report,
) -> Result<(), AllocError> {
    let agent = client.agent(alloc)?;
    match shaken.prepare_lsrefs_or_extract_refmap(alloc, &client.table, agent, true, context) {
        Ok(prepared) => {
            let word = prepared_word(&prepared);
            drop(prepared);
            report.word(word);
        }
        Err(e) => init_error(report, &e),
    }
    Ok(())
}

// Prepares a map, and fetches it.
fn prepare_and_fetch<T: Transport>(
    alloc: Global,
    shaken: &mut Handshake,
    client: Client,
    context: Context,
    progress: &mut Reporting,
    transport: &mut T,
    report: &mut Report,
) -> Result<Option<Result<RefMap, Error>>, AllocError> {
    let agent = client.agent(alloc)?;
    let wanted = client.way != 2;
    match ObtainRefMap::prepare(
        alloc,
        &mut shaken.refs,
        &shaken.capabilities,
        &client.table,
        agent,
        wanted,
        context,
    ) {
        Ok(prepared) => {
            let word = prepared_word(&prepared);
            let map = prepared.fetch_blocking(alloc, progress, transport);
            report.word(word);
            Ok(Some(map))
        }
        Err(e) => {
            init_error(report, &e);
            Ok(None)
        }
    }
}

// Makes a map that is prepared first.
fn prepare<T: Transport>(
    alloc: Global,
    shaken: &mut Handshake,
    client: Client,
    context: Context,
    progress: &mut Reporting,
    transport: &mut T,
    report: &mut Report,
) -> Result<Option<Result<RefMap, Error>>, AllocError> {
    if client.way == 3 {
        prepare_alone(alloc, shaken, client, context.clone()?, report)?;
    }
    prepare_and_fetch(alloc, shaken, client, context, progress, transport, report)
}

// Makes the ref map after a handshake.
fn report_mapped<T: Transport>(
    alloc: Global,
    shaken: &mut Handshake,
    client: Client,
    context: Context,
    transport: &mut T,
    report: &mut Report,
) -> Result<(), AllocError> {
    let mut progress = Reporting::new(alloc);
    let map = if client.way == 0 {
        let agent = client.agent(alloc)?;
        Some(obtain(
            alloc,
            shaken,
            &client.table,
            agent,
            context,
            &mut progress,
            transport,
        ))
    } else {
        prepare(
            alloc,
            shaken,
            client,
            context,
            &mut progress,
            transport,
            report,
        )?
    };
    match &map {
        Some(Ok(map)) => report_map(report, map),
        Some(Err(e)) => init_error(report, e),
        None => {}
    }
    progress.report(report);
    report.word(match &shaken.refs {
        Some(_) => "kept ",
        None => "taken ",
    });
    Ok(())
}

// Performs a handshake, and makes the ref map.
fn report_over<T: Transport>(
    alloc: Global,
    transport: &mut T,
    client: Client,
    context: Context,
    report: &mut Report,
) -> Result<(), AllocError> {
    let mut helper = Helper::new(alloc, &[]);
    let mut progress = Reporting::new(alloc);
    let outcome = handshake(
        alloc,
        transport,
        Service::UploadPack,
        |action: Action| helper.answer(action),
        Vec::new(alloc),
        &mut progress,
    );
    match outcome {
        Ok(mut shaken) => {
            report_mapped(alloc, &mut shaken, client, context, transport, report)?;
            report_rest(transport, shaken.server_protocol_version, report);
        }
        Err(e) => shake_error(report, &e),
    }
    Ok(())
}

// The lines and the other packets that were sent.
fn report_sent(sent: &[u8], report: &mut Report) {
    let mut rest = sent;
    report.word("sent ");
    for _ in 0..sent.len() {
        let Ok(Some((packet, others))) = split_packet_line(rest) else {
            break;
        };
        match packet {
            PacketLine::Data(line) => report.quote(line),
            PacketLine::Special(_) => report.word("| "),
        }
        rest = others;
    }
}

/// Makes a ref map over a connection or memory, and reports what was sent.
pub(crate) fn report_listing(
    alloc: Global,
    row: &Row<'_>,
    report: &mut Report,
) -> Result<(), AllocError> {
    let [over, version, ..] = row.settings;
    let (explicit, rest) = cut_at_byte(row.payload, b'\n');
    let (extra, rest) = cut_at_byte(rest, b'\n');
    let (words, bytes) = cut_at_byte(rest, b'\n');
    let Some(context) = context_of(alloc, explicit, extra, report)? else {
        return Ok(());
    };
    let client = Client::of_row(row);
    if over == 1 {
        let device = row.device(bytes);
        let mut transport = connection(alloc, device, version, 0)?;
        report_over(alloc, &mut transport, client, context, report)?;
        report_sent(&transport.writer().bytes, report);
        return Ok(());
    }
    let mut transport = memory(alloc, bodies_of(alloc, words, bytes)?, 0)?;
    report_over(alloc, &mut transport, client, context, report)?;
    for request in transport.sent() {
        report_sent(request, report);
    }
    Ok(())
}
