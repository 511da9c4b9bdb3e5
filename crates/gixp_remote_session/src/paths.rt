//! The paths of the repository that fetches, as `git rev-parse` prints them.
ghost use Rattle.std.specs.Prelude.{◌≡◌, ◌==◌, ℕ, List, map, true, false, codes, option_map, IfOk, MatchResult, string_bytes};
ghost use Rattle.std.specs.List.{slice_split};
ghost use Rattle.bstr.specs.BStr.{bstr_bytes};
ghost use Rattle.bstr.specs.Owned.{bstring_bytes};
ghost use Rattle.gixp_remote_session.specs.ListedPaths.{AreListedPaths, boundary_file, fits_format};
ghost use Rattle.gixp_remote_session.specs.Errors.{ErrorIsWord};

use crate::error::Error;
use crate::setup::variable;
use crate::shell::Shell;
use bstr::{BStr, BString, ByteSlice};
use gix_protocol::fetch::shallow_ids;
use gix_protocol::transport::ObjectId;
use gixp_remote_rules::{Question, ShellTask};
use gixp_utils::text_pieces;
use std::alloc::{AllocError, Global};
use std::fs;
use std::io::ErrorKind;

// Why the paths are unknown.
const NO_PATHS: &str = "git can't print the paths of the repository, or a path has a line feed";

/// The paths of a repository. Linked work trees may share them.
#[derive(Drop)]
pub(crate) struct RepositoryPaths {
    /// The name of the hash function.
    pub(crate) format: BString,
    /// The file of the shallow boundary.
    pub(crate) shallow: String,
    /// git's lock of the boundary.
    pub(crate) shallow_lock: String,
    /// The object directory.
    pub(crate) objects: String,
}

// A path as a string.
fn path_of(alloc: Global, path: &[u8]) -> Result<String, Error>
    ensures { IfOk result (λ text. string_bytes text ≡ path.now) }
{
    match path.to_str() {
        Ok(text) => Ok(String::from_str(alloc, text)?),
        Err(_) => Err(Error::with_text(alloc, "this path is not UTF-8:", path)),
    }
}

impl RepositoryPaths {
    // The paths of the lines. The last line is empty.
    fn of_lines(alloc: Global, lines: &[BStr<'_>]) -> Result<RepositoryPaths, Error>
        ensures { IfOk result (AreListedPaths (map bstr_bytes lines.now)) }
    {
        let [format, shallow, objects, end] = lines else {
            return Err(Error::Other(NO_PATHS));
        };
        if !end.is_empty() {
            return Err(Error::Other(NO_PATHS));
        }
        let format = BString::from_slice(alloc, format.as_bytes())?;
        let shallow = path_of(alloc, shallow.as_bytes())?;
        let objects = path_of(alloc, objects.as_bytes())?;
        let shallow_lock = format!(in alloc; "{shallow}.lock")?;
        Ok(RepositoryPaths {
            format,
            shallow,
            shallow_lock,
            objects,
        })
    }

    /// Reads the paths that git was asked for. In a clone git may have changed the repository's
    /// format while the refs were listed, and so refused to answer. It is done now, so it is asked
    /// again.
    pub(crate) fn read(rt: &HostRuntime, shell: &mut Shell) -> Result<RepositoryPaths, Error>
        ensures { IfOk result (λ paths. (text : List ℕ) × AreListedPaths (slice_split (λ b. b == 10) text) paths) }
    {
        let mut output = shell.read_output(rt, ShellTask::Question)?;
        if output.status != 0 {
            output = shell.ask_git(rt, Question::Paths)?;
        }
        let lines = text_pieces(rt.alloc(), &output.text)?;
        RepositoryPaths::of_lines(rt.alloc(), &lines)
    }

    /// Fails if the repository doesn't use the server's hash function. In a clone git may set that
    /// after it was asked for the paths.
    pub(crate) fn expect_format(&self, alloc: Global, is_cloning: bool) -> Result<(), Error>
        ensures { MatchResult result (λ _. fits_format is_cloning (bstring_bytes self.now.format) ≡ true)
            (λ e. (fits_format is_cloning (bstring_bytes self.now.format) ≡ false)
            × ErrorIsWord (codes "mismatched algorithms: server sha1; client") (bstring_bytes self.now.format) e) }
    {
        if is_cloning || self.format.as_bytes() == b"sha1".as_slice() {
            return Ok(());
        }
        let format = self.format.as_bytes();
        Err(Error::with_text(alloc, "mismatched algorithms: server sha1; client", format))
    }

    /// The shallow boundary. `GIT_SHALLOW_FILE` overrides its file.
    pub(crate) fn boundary(&self, rt: &HostRuntime) -> Result<Vec<ObjectId>, Error> {
        let alloc = rt.alloc();
        let named = match variable(rt, "GIT_SHALLOW_FILE")? {
            Some(path) => Some(path_of(alloc, path.as_bytes())?),
            None => None,
        };
        match boundary_file(alloc, self.shallow.as_str(), named.as_deref())? {
            Some(path) => boundary_in(rt, path.as_str()),
            None => Ok(Vec::new(alloc)),
        }
    }

    /// The boundary in the repository's own file.
    pub(crate) fn own_boundary(&self, rt: &HostRuntime) -> Result<Vec<ObjectId>, Error> {
        boundary_in(rt, self.shallow.as_str())
    }

    /// Whether the repository has alternates.
    pub(crate) fn has_alternates(&self, rt: &HostRuntime) -> Result<bool, Error> {
        if variable(rt, "GIT_ALTERNATE_OBJECT_DIRECTORIES")?.is_some() {
            return Ok(true);
        }
        let path = format!(in rt.alloc(); "{}/info/alternates", self.objects)?;
        Ok(fs::metadata(rt, path.as_str()).is_ok())
    }
}

// The file of the boundary, by `GIT_SHALLOW_FILE`. `None` if that is empty. The working directory
// is the folder of the shell's open files, so a relative path must begin at the shell's working
// directory.
fn boundary_file(
    alloc: Global,
    own: &str,
    named: Option<&str>,
) -> Result<Option<String>, AllocError>
    ensures { IfOk result (λ path. option_map string_bytes path ≡ boundary_file own.now (option_map (λ n. n.now) named.entry)) }
{
    let Some(path) = named else {
        return Ok(Some(String::from_str(alloc, own)?));
    };
    if path.is_empty() {
        Ok(None)
    } else if path.as_bytes().starts_with(b"/") {
        Ok(Some(String::from_str(alloc, path)?))
    } else {
        Ok(Some(format!(in alloc; "../cwd/{path}")?))
    }
}

// The boundary in a file. It is empty if the file doesn't exist, or is a folder.
fn boundary_in(rt: &HostRuntime, path: &str) -> Result<Vec<ObjectId>, Error> {
    let alloc = rt.alloc();
    let text = match fs::read(rt, path) {
        Ok(text) => text,
        Err(e) => match e.kind() {
            ErrorKind::NotFound | ErrorKind::IsADirectory => Vec::new(alloc),
            kind => return Err(Error::Io(kind)),
        },
    };
    match shallow_ids(alloc, &text) {
        Ok(ids) => Ok(ids),
        Err(_) => Err(Error::Other("the shallow boundary can't be read")),
    }
}
