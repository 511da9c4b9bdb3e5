//! The packs that the server names by URIs (gitprotocol-v2, "packfile-uris"; git's "Packfile
//! URIs"), and their downloads by git. They are downloaded into the quarantine of the server's
//! pack. No object is used before all packs are present.
ghost use Rattle.std.specs.Prelude.{◌≡◌, IfSome};
ghost use Rattle.gixp_remote_session.specs.Downloads.{protocols_of, AreParts, download_error, own_pack};
ghost use Rattle.gixp_remote_session.specs.Errors.{ErrorIsFatal};

use crate::error::Error;
use crate::job::FetchJob;
use crate::pack::plan::PackPlan;
use crate::pack::state::PackState;
use crate::setup::within;
use crate::shell::{NOTHING, Shell};
use bstr::BString;
use gix_protocol::client::UriProtocols;
use gix_protocol::transport::ObjectId;
use gixp_packfile_uris::UriSink;
use gixp_remote_rules::{
    DownloadError, Program, ShellTask, UriSetting, concat, download_argv, downloaded_pack,
    fsck_pack_argv, has_pack_name, lists_gitmodules, pack_file, pack_variables, part_argv,
};
use std::alloc::Global;
use std::cell::RefCell;
use std::{fs, mem};

// The error text for a section that is refused.
const BAD_LINE: &str = "expected '<hash> <uri>' in each line of the section packfile-uris";

/// The section `packfile-uris` of a response.
#[derive(Drop)]
pub(crate) struct Uris {
    // Its lines: the hash of a pack, a space and a URI.
    lines: Vec<BString>,
    // Whether a line is missing, since an allocation failed.
    is_incomplete: bool,
    // Whether a line was refused.
    is_refused: bool,
}

impl Uris {
    pub(crate) fn new(alloc: Global) -> Uris {
        Uris {
            lines: Vec::new(alloc),
            is_incomplete: false,
            is_refused: false,
        }
    }

    fn add(&mut self, alloc: Global, line: &[u8]) {
        let is_kept = match BString::from_slice(alloc, line) {
            Ok(line) => self.lines.push(line).is_ok(),
            Err(_) => false,
        };
        if !is_kept {
            self.is_incomplete = true;
        }
    }
}

/// The sink for the lines of the section.
#[derive(Drop)]
pub(crate) struct UriRecorder<'a> {
    pub(crate) alloc: Global,
    pub(crate) uris: &'a RefCell<Uris>,
}

impl UriSink for UriRecorder<'_> {
    fn take(&mut self, line: &[u8]) {
        if let Ok(mut uris) = self.uris.try_borrow_mut() {
            uris.add(self.alloc, line);
        }
    }
}

/// Records that a line was refused.
pub(crate) fn record_refusal(uris: &RefCell<Uris>) {
    if let Ok(mut uris) = uris.try_borrow_mut() {
        uris.is_refused = true;
    }
}

/// Removes all lines.
pub(crate) fn clear_uris(uris: &RefCell<Uris>) {
    if let Ok(mut uris) = uris.try_borrow_mut() {
        uris.lines.clear();
        uris.is_incomplete = false;
        uris.is_refused = false;
    }
}

/// Fails if a line was refused.
pub(crate) fn expect_lines(uris: &RefCell<Uris>) -> Result<(), Error> {
    match uris.try_borrow() {
        Ok(uris) if uris.is_refused => Err(Error::Fatal(BAD_LINE)),
        _ => Ok(()),
    }
}

/// Whether the server named packs by URIs.
pub(crate) fn has_uris(uris: &RefCell<Uris>) -> bool {
    match uris.try_borrow() {
        Ok(uris) => uris.is_incomplete || !uris.lines.is_empty(),
        Err(_) => false,
    }
}

// Takes the lines out.
fn take_lines(alloc: Global, uris: &RefCell<Uris>) -> Result<Vec<BString>, Error> {
    match uris.try_borrow_mut() {
        Ok(uris) if uris.is_incomplete => Err(Error::Memory),
        Ok(mut uris) => Ok(mem::replace(&mut uris.lines, Vec::new(alloc))),
        Err(_) => Ok(Vec::new(alloc)),
    }
}

/// The protocols of URIs to request.
pub(crate) fn protocols_of(setting: UriSetting) -> UriProtocols
    ensures { result ≡ protocols_of setting.http setting.https }
{
    match (setting.http, setting.https) {
        (false, false) => UriProtocols::Neither,
        (true, false) => UriProtocols::Http,
        (false, true) => UriProtocols::Https,
        (true, true) => UriProtocols::Both,
    }
}

// The hash of a pack and the URI in a line.
fn parts_of(line: &[u8]) -> Option<(&[u8], &[u8])>
    ensures { IfSome result (λ parts. AreParts line.now parts.0.now parts.1.now) }
{
    let Some((front, uri)) = line.split_at_checked(41) else {
        return None;
    };
    match front.strip_suffix(b" ") {
        Some(name) => Some((name, uri)),
        None => None,
    }
}

// A pack that the server names by a URI.
#[derive(Clone, Copy)]
struct NamedPack<'a> {
    name: &'a [u8],
    uri: &'a [u8],
}

// The packs of the lines. Fails if the user doesn't allow the protocol of a URI.
fn named_packs<'a>(
    alloc: Global,
    setting: UriSetting,
    lines: &'a [BString],
) -> Result<Vec<NamedPack<'a>>, Error> {
    let mut all = Vec::new(alloc);
    for line in lines {
        let Some((name, uri)) = parts_of(line.as_bytes()) else {
            return Err(Error::Fatal(BAD_LINE));
        };
        if !setting.allows(uri) {
            return Err(Error::with_text(
                alloc,
                "fetch.uriProtocols doesn't have the protocol of the server's URI",
                uri,
            ));
        }
        all.push(NamedPack { name, uri })?;
    }
    Ok(all)
}

// The error if a download isn't the pack that the server named, in git's words.
fn mismatch(alloc: Global, named: NamedPack<'_>) -> Error {
    match (
        BString::from_slice(alloc, named.uri),
        BString::from_slice(alloc, named.name),
    ) {
        (Ok(uri), Ok(name)) => Error::Mismatch(uri, name),
        _ => Error::Memory,
    }
}

// The error of a download, in git's words.
fn download_error(e: DownloadError) -> Error
    ensures { ErrorIsFatal (download_error e) result }
{
    match e {
        DownloadError::NoLock => Error::Fatal(
            "fetch-pack: expected keep then TAB at start of http-fetch output",
        ),
        DownloadError::NoName => Error::Fatal(
            "fetch-pack: expected hash then LF at end of http-fetch output",
        ),
        DownloadError::Unfinished => Error::Fatal("fetch-pack: unable to finish http-fetch"),
    }
}

// The settings of all downloads.
#[derive(Clone, Copy)]
struct Downloader<'a> {
    rt: &'a HostRuntime,
    // The arguments of `git index-pack`.
    argv: &'a [BString],
    variables: &'a [BString],
}

// Downloads a pack.
fn download(
    downloader: Downloader<'_>,
    shell: &mut Shell,
    named: NamedPack<'_>,
) -> Result<ObjectId, Error> {
    let alloc = downloader.rt.alloc();
    let argv = download_argv(alloc, named.name, downloader.argv, named.uri)?;
    let output = shell.run(
        downloader.rt,
        ShellTask::Question,
        Program::Git,
        NOTHING,
        downloader.variables,
        &argv,
    )?;
    if lists_gitmodules(&output.text) {
        shell.lists_gitmodules = true;
    }
    match downloaded_pack(&output.text, output.status) {
        Ok(pack) if has_pack_name(named.name, &pack) => Ok(pack),
        Ok(_) => Err(mismatch(alloc, named)),
        Err(e) => Err(download_error(e)),
    }
}

// Has git check the objects of a pack again. The `.gitmodules` file of a tree may be in another
// pack than the tree.
fn check_pack(
    downloader: Downloader<'_>,
    shell: &mut Shell,
    folder: &[u8],
    pack: &ObjectId,
) -> Result<(), Error> {
    let alloc = downloader.rt.alloc();
    let index = concat(alloc, &[folder, b"/check.idx"])?;
    let file = pack_file(alloc, folder, pack, b".pack")?;
    let argv = fsck_pack_argv(alloc, &index, &file)?;
    let output = shell.run(
        downloader.rt,
        ShellTask::Question,
        Program::Git,
        NOTHING,
        downloader.variables,
        &argv,
    )?;
    if output.status == 0 {
        Ok(())
    } else {
        Err(Error::Fatal("fsck failed"))
    }
}

// The hash of the server's own pack, if it is indexed.
fn own_pack(pack: PackState) -> Option<ObjectId>
    ensures { result ≡ own_pack pack }
{
    match pack {
        PackState::Indexed(indexed) => Some(indexed.hash),
        PackState::Unbegun
        | PackState::Begun
        | PackState::Unreadable
        | PackState::Unstarted
        | PackState::Refused
        | PackState::Unpacked(_)
        | PackState::Empty(_) => None,
    }
}

// Has git check all packs again, if a `.gitmodules` file was not in the pack of its tree.
fn check_packs(
    downloader: Downloader<'_>,
    shell: &mut Shell,
    folder: &[u8],
    pack: PackState,
    packs: &[ObjectId],
) -> Result<(), Error> {
    if !shell.lists_gitmodules {
        return Ok(());
    }
    if let Some(hash) = own_pack(pack) {
        check_pack(downloader, shell, folder, &hash)?;
    }
    for pack in packs {
        check_pack(downloader, shell, folder, pack)?;
    }
    Ok(())
}

/// Downloads the packs that the server named, in its order, into the quarantine. Returns their
/// hashes.
pub(crate) fn download_all(
    job: FetchJob<'_, '_>,
    shell: &mut Shell,
    plan: &PackPlan,
    pack: PackState,
) -> Result<Vec<ObjectId>, Error> {
    let rt = job.context.rt;
    let alloc = rt.alloc();
    let mut packs = Vec::new(alloc);
    let lines = take_lines(alloc, job.context.uris)?;
    if lines.is_empty() {
        return Ok(packs);
    }
    let all = named_packs(alloc, job.context.uri_setting, &lines)?;
    fs::create_dir_all(rt, format!(in alloc; "{}/pack", plan.folder)?.as_str())?;
    let argv = part_argv(alloc, plan.argv_for(pack.has_boundary()))?;
    let variables = pack_variables(alloc, within(rt)?, &plan.variables)?;
    let downloader = Downloader {
        rt,
        argv: &argv,
        variables: &variables,
    };
    for named in &all {
        packs.push(download(downloader, shell, *named)?)?;
    }
    check_packs(downloader, shell, plan.folder.as_bytes(), pack, &packs)?;
    Ok(packs)
}
