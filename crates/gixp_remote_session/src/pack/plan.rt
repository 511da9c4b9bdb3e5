//! The plan of a pack: its quarantine, and the arguments and variables of git there.
ghost use Rattle.std.specs.Prelude.{◌≡◌, ◌&&◌, ◌∷◌, [], ◌++◌, true, false, not, map, codes, IfOk, OnOk, string_bytes};
ghost use Rattle.bstr.specs.Owned.{bstring_bytes};
ghost use Rattle.gixp_remote_rules.specs.HelperOptions.{options_value};
ghost use Rattle.gixp_remote_session.specs.Packs.{pack_folder, IsPlan, SamePlan};

use crate::error::Error;
use crate::paths::RepositoryPaths;
use crate::setup::{bytes_of, variable};
use bstr::{BString, ByteSlice};
use gix_protocol::transport::ObjectId;
use gixp_remote_rules::{HelperOptions, index_argv, object_variables};
use std::alloc::Global;

/// The quarantine of a pack, and the arguments and variables of git there.
#[derive(Drop)]
pub(crate) struct PackPlan {
    /// The folder of the quarantine.
    pub(crate) folder: String,
    /// The arguments of `git index-pack` if the server sends no boundary.
    pub(crate) argv: Vec<BString>,
    /// The arguments of `git index-pack` if the server sends a boundary.
    pub(crate) boundary_argv: Vec<BString>,
    /// The file for the server's boundary.
    pub(crate) shallow: String,
    /// The boundary before the fetch.
    pub(crate) old: Vec<ObjectId>,
    /// The variables that make git look for objects in the quarantine.
    pub(crate) variables: Vec<BString>,
    /// A pack with fewer objects is unpacked. `None` keeps every pack.
    pub(crate) limit: Option<u32>,
    /// Whether progress is shown.
    pub(crate) shows_progress: bool,
}

/// The user's settings for a pack.
#[derive(Clone, Copy)]
pub(crate) struct PackRules<'a> {
    /// The arguments for checking objects.
    pub(crate) checks: &'a [BString],
    /// A pack with fewer objects is unpacked. `None` keeps every pack.
    pub(crate) limit: Option<u32>,
}

fn argv_by<'x>(
    argv: &'x [BString],
    boundary_argv: &'x [BString],
    has_boundary: bool,
) -> &'x [BString]
    ensures bounded { has_boundary ≡ true → result.now ≡ boundary_argv.now }
    ensures unbounded { has_boundary ≡ false → result.now ≡ argv.now }
{
    if has_boundary { boundary_argv } else { argv }
}

fn add_word(alloc: Global, argv: &mut Vec<BString>, word: &[u8]) -> Result<(), Error>
    ensures { OnOk result (map bstring_bytes argv.new.items ≡ map bstring_bytes argv.old.items ++ word.now ∷ []) }
{
    argv.push(BString::from_slice(alloc, word)?)?;
    Ok(())
}

fn copy_argv(alloc: Global, argv: &[BString]) -> Result<Vec<BString>, Error>
    ensures { IfOk result (λ all. map bstring_bytes all.items ≡ map bstring_bytes argv.now) }
{
    let mut all = Vec::new(alloc);
    for word in argv {
        add_word(alloc, &mut all, word.as_bytes())?;
    }
    Ok(all)
}

// The name of the quarantine as a string.
fn utf8_name(name: &[u8]) -> Result<&str, Error>
    ensures { IfOk result (λ r. r.now ≡ name.now) }
{
    match name.to_str() {
        Ok(utf8) => Ok(utf8),
        Err(_) => Err(Error::Other("the mark of the helper is not UTF-8")),
    }
}

// The path of the quarantine, which is in the object directory.
fn quarantine_folder(alloc: Global, objects: &str, utf8: &str) -> Result<String, Error>
    ensures { IfOk result (λ f. string_bytes f ≡ pack_folder objects.now utf8.now) }
{
    Ok(format!(in alloc; "{objects}/tmp_objdir-{utf8}")?)
}

// The file for the boundary in the quarantine.
fn shallow_file(alloc: Global, folder: &str) -> Result<String, Error>
    ensures { IfOk result (λ f. string_bytes f ≡ folder.now ++ codes "/shallow") }
{
    Ok(format!(in alloc; "{folder}/shallow")?)
}

impl PackPlan {
    /// The arguments of `git index-pack`, by whether the server sent a boundary.
    pub(crate) fn argv_for(&self, has_boundary: bool) -> &[BString]
        ensures bounded { has_boundary ≡ true → result.now ≡ self.now.boundary_argv.items }
        ensures unbounded { has_boundary ≡ false → result.now ≡ self.now.argv.items }
    {
        argv_by(&self.argv, &self.boundary_argv, has_boundary)
    }

    /// A copy.
    pub(crate) fn copy(&self, alloc: Global) -> Result<PackPlan, Error>
        ensures { IfOk result (SamePlan self.now) }
    {
        Ok(PackPlan {
            folder: self.folder.clone()?,
            argv: copy_argv(alloc, &self.argv)?,
            boundary_argv: copy_argv(alloc, &self.boundary_argv)?,
            shallow: self.shallow.clone()?,
            old: Vec::from_slice(alloc, &self.old)?,
            variables: copy_argv(alloc, &self.variables)?,
            limit: self.limit,
            shows_progress: self.shows_progress,
        })
    }

    /// The plan of a pack whose quarantine has this name.
    pub(crate) fn new(
        rt: &HostRuntime,
        paths: &RepositoryPaths,
        name: &[u8],
        options: &HelperOptions,
        rules: PackRules<'_>,
        old: &[ObjectId],
    ) -> Result<PackPlan, Error>
        ensures plan { IfOk result (IsPlan (string_bytes paths.now.objects) name.now (options_value options.now) (map bstring_bytes rules.entry.checks.now)) }
        ensures limit { IfOk result (λ p. p.limit ≡ rules.entry.limit) }
        ensures progress { IfOk result (λ p. p.shows_progress ≡ (options.now.shows_progress && not options.now.is_quiet)) }
        ensures old { IfOk result (λ p. p.old.items ≡ old.now) }
    {
        let alloc = rt.alloc();
        let utf8 = utf8_name(name)?;
        let folder = quarantine_folder(alloc, paths.objects.as_str(), utf8)?;
        let shallow = shallow_file(alloc, folder.as_str())?;
        let argv = index_argv(alloc, name, None, options, rules.checks)?;
        let boundary_argv = index_argv(
            alloc,
            name,
            Some(shallow.as_bytes()),
            options,
            rules.checks,
        )?;
        let more = variable(rt, "GIT_ALTERNATE_OBJECT_DIRECTORIES")?;
        let variables = object_variables(
            alloc,
            folder.as_bytes(),
            paths.objects.as_bytes(),
            bytes_of(&more),
        )?;
        Ok(PackPlan {
            folder,
            argv,
            boundary_argv,
            shallow,
            old: Vec::from_slice(alloc, old)?,
            variables,
            limit: rules.limit,
            shows_progress: options.wants_progress(),
        })
    }
}
