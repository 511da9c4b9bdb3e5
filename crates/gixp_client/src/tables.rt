//! The commands and features that a client uses by itself.
ghost use Rattle.std.specs.Prelude.{◌≡◌, ◌≢◌, codes};
ghost use Rattle.gixp_requests.specs.Command.{table_of, entries_of};
ghost use Rattle.gixp_client.specs.Tables.{id_table, plain_table, with_uris, without, thin_table, asked_table};

use gixp_requests::command::CommandTable;

/// The protocols of the URIs that a server may send in place of objects in its pack (git-config, "fetch.uriProtocols").
#[derive(Clone, Copy, Debug, PartialEq, Eq)]
pub enum UriProtocols {
    /// None.
    Neither,
    /// http.
    Http,
    /// https.
    Https,
    /// http and https.
    Both,
}

// The first argument lines of a version 2 fetch, each with the feature it needs.
type Lines = &'static [(&'static str, Option<&'static str>)];

const THIN: (&str, Option<&str>) = ("thin-pack", None);

const OFFSETS: (&str, Option<&str>) = ("ofs-delta", None);

const BANDS: (&str, Option<&str>) = ("sideband-all", Some("sideband-all"));

const QUIET: (&str, Option<&str>) = ("no-progress", None);

const HTTP: (&str, Option<&str>) = ("packfile-uris http", Some("packfile-uris"));

const HTTPS: (&str, Option<&str>) = ("packfile-uris https", Some("packfile-uris"));

const BOTH: (&str, Option<&str>) = ("packfile-uris http,https", Some("packfile-uris"));

static QUIET_V1_FETCH: [(&str, Option<&str>); 13] = [
    ("multi_ack", Some("multi_ack_detailed")),
    ("thin-pack", None),
    ("side-band", Some("side-band-64k")),
    ("side-band-64k", None),
    ("ofs-delta", None),
    ("shallow", None),
    ("deepen-since", None),
    ("deepen-not", None),
    ("deepen-relative", None),
    ("include-tag", None),
    ("multi_ack_detailed", None),
    ("filter", None),
    ("no-progress", None),
];

// The same without `thin-pack`.
static WHOLE_V1_FETCH: [(&str, Option<&str>); 11] = [
    ("multi_ack", Some("multi_ack_detailed")),
    ("side-band", Some("side-band-64k")),
    ("side-band-64k", None),
    ("ofs-delta", None),
    ("shallow", None),
    ("deepen-since", None),
    ("deepen-not", None),
    ("deepen-relative", None),
    ("include-tag", None),
    ("multi_ack_detailed", None),
    ("filter", None),
];

static WHOLE_QUIET_V1_FETCH: [(&str, Option<&str>); 12] = [
    ("multi_ack", Some("multi_ack_detailed")),
    ("side-band", Some("side-band-64k")),
    ("side-band-64k", None),
    ("ofs-delta", None),
    ("shallow", None),
    ("deepen-since", None),
    ("deepen-not", None),
    ("deepen-relative", None),
    ("include-tag", None),
    ("multi_ack_detailed", None),
    ("filter", None),
    ("no-progress", None),
];

static WHOLE_ARGUMENTS: [(&str, Option<&str>); 2] = [OFFSETS, BANDS];

static WHOLE_HTTP: [(&str, Option<&str>); 3] = [OFFSETS, BANDS, HTTP];

static WHOLE_HTTPS: [(&str, Option<&str>); 3] = [OFFSETS, BANDS, HTTPS];

static WHOLE_BOTH: [(&str, Option<&str>); 3] = [OFFSETS, BANDS, BOTH];

static WHOLE_QUIET_ARGUMENTS: [(&str, Option<&str>); 3] = [OFFSETS, BANDS, QUIET];

static WHOLE_QUIET_HTTP: [(&str, Option<&str>); 4] = [OFFSETS, BANDS, QUIET, HTTP];

static WHOLE_QUIET_HTTPS: [(&str, Option<&str>); 4] = [OFFSETS, BANDS, QUIET, HTTPS];

static WHOLE_QUIET_BOTH: [(&str, Option<&str>); 4] = [OFFSETS, BANDS, QUIET, BOTH];

static QUIET_ARGUMENTS: [(&str, Option<&str>); 4] = [THIN, OFFSETS, BANDS, QUIET];

static ARGUMENTS_HTTP: [(&str, Option<&str>); 4] = [THIN, OFFSETS, BANDS, HTTP];

static ARGUMENTS_HTTPS: [(&str, Option<&str>); 4] = [THIN, OFFSETS, BANDS, HTTPS];

static ARGUMENTS_BOTH: [(&str, Option<&str>); 4] = [THIN, OFFSETS, BANDS, BOTH];

static QUIET_HTTP: [(&str, Option<&str>); 5] = [THIN, OFFSETS, BANDS, QUIET, HTTP];

static QUIET_HTTPS: [(&str, Option<&str>); 5] = [THIN, OFFSETS, BANDS, QUIET, HTTPS];

static QUIET_BOTH: [(&str, Option<&str>); 5] = [THIN, OFFSETS, BANDS, QUIET, BOTH];

static FEATURES: [&str; 3] = ["shallow", "filter", "sideband-all"];

static URI_FEATURES: [&str; 4] = ["shallow", "filter", "sideband-all", "packfile-uris"];

static URI_PREFIXES: [&str; 16] = [
    "want ",
    "have ",
    "done",
    "thin-pack",
    "no-progress",
    "include-tag",
    "ofs-delta",
    "shallow ",
    "deepen ",
    "deepen-relative",
    "deepen-since ",
    "deepen-not ",
    "filter ",
    "want-ref ",
    "sideband-all",
    "packfile-uris ",
];

// git's table without `ref-in-want`: a response may give a ref that is requested by its name another id than the ref map has.
fn id_table() -> CommandTable
    ensures { table_of result ≡ id_table }
{
    CommandTable {
        v2_fetch: &FEATURES,
        ..CommandTable::git()
    }
}

// The same table, with `no-progress` last if no progress is wanted.
fn plain_table(wants_progress: bool) -> CommandTable
    ensures { table_of result ≡ plain_table wants_progress }
{
    if wants_progress {
        return id_table();
    }
    CommandTable {
        v1_fetch: &QUIET_V1_FETCH,
        fetch_arguments: &QUIET_ARGUMENTS,
        ..id_table()
    }
}

// The first argument lines of a version 2 fetch that allows packfile URIs.
fn uri_arguments(wants_progress: bool, protocols: UriProtocols) -> Lines
    requires { protocols ≢ UriProtocols.Neither }
    ensures { entries_of result.now ≡ (with_uris protocols (plain_table wants_progress)).fetch_arguments }
{
    match (protocols, wants_progress) {
        (UriProtocols::Http, true) => &ARGUMENTS_HTTP,
        (UriProtocols::Https, true) => &ARGUMENTS_HTTPS,
        (UriProtocols::Both, true) => &ARGUMENTS_BOTH,
        (UriProtocols::Http, false) => &QUIET_HTTP,
        (UriProtocols::Https, false) => &QUIET_HTTPS,
        (UriProtocols::Both, false) => &QUIET_BOTH,
        (UriProtocols::Neither, _) => unreachable!(),
    }
}

// The features of versions 0 and 1 without `thin-pack`.
fn whole_features(wants_progress: bool) -> Lines
    ensures { entries_of result.now ≡ without (codes "thin-pack") (plain_table wants_progress).v1_fetch }
{
    if wants_progress {
        &WHOLE_V1_FETCH
    } else {
        &WHOLE_QUIET_V1_FETCH
    }
}

// The first argument lines of a version 2 fetch without `thin-pack`.
fn whole_arguments(wants_progress: bool, protocols: UriProtocols) -> Lines
    ensures { entries_of result.now ≡ without (codes "thin-pack") (thin_table wants_progress protocols).fetch_arguments }
{
    match (protocols, wants_progress) {
        (UriProtocols::Neither, true) => &WHOLE_ARGUMENTS,
        (UriProtocols::Http, true) => &WHOLE_HTTP,
        (UriProtocols::Https, true) => &WHOLE_HTTPS,
        (UriProtocols::Both, true) => &WHOLE_BOTH,
        (UriProtocols::Neither, false) => &WHOLE_QUIET_ARGUMENTS,
        (UriProtocols::Http, false) => &WHOLE_QUIET_HTTP,
        (UriProtocols::Https, false) => &WHOLE_QUIET_HTTPS,
        (UriProtocols::Both, false) => &WHOLE_QUIET_BOTH,
    }
}

/// git's table without `ref-in-want`, so that each want is an id. If no progress is wanted, `no-progress` is added: a feature of
/// versions 0 and 1 where the server offers it, a line under version 2 (gitprotocol-capabilities, "no-progress"; gitprotocol-v2,
/// "fetch"). If no thin pack is wanted, `thin-pack` is left out. If packfile URIs are allowed, a line `packfile-uris` with their
/// protocols follows, only under version 2 and if the server offers it.
pub(crate) fn table_by(
    wants_progress: bool,
    wants_thin_pack: bool,
    protocols: UriProtocols,
) -> CommandTable
    ensures { table_of result ≡ asked_table wants_progress wants_thin_pack protocols }
{
    let table = thin_table(wants_progress, protocols);
    if wants_thin_pack {
        return table;
    }
    CommandTable {
        v1_fetch: whole_features(wants_progress),
        fetch_arguments: whole_arguments(wants_progress, protocols),
        ..table
    }
}

// The table of a client that wants thin packs.
fn thin_table(wants_progress: bool, protocols: UriProtocols) -> CommandTable
    ensures { table_of result ≡ thin_table wants_progress protocols }
{
    let table = plain_table(wants_progress);
    if protocols == UriProtocols::Neither {
        return table;
    }
    CommandTable {
        v2_fetch: &URI_FEATURES,
        fetch_arguments: uri_arguments(wants_progress, protocols),
        fetch_prefixes: &URI_PREFIXES,
        ..table
    }
}
