//! The options that git sets (gitremote-helpers, "OPTIONS"), and the reply to each.
ghost use Rattle.std.specs.Prelude.{◌≡◌, ◌&&◌, not, IfOk, IfNone, OnErr, Some, None};
ghost use Rattle.std.specs.Option.{option_map};
ghost use Rattle.gixp_remote_rules.specs.HelperOptions.{options_value, default_options, with_switch, with_history, with_format, with_family, with_other, with_option, limits, has_depth, wants_connectivity};
ghost use Rattle.gixp_remote_rules.specs.HelperOptions.{with_since, with_excluded, with_filter};
ghost use Rattle.gixp_remote_rules.specs.CQuoting.{text_value};
ghost use Rattle.gixp_remote_rules.specs.OptionValues.{switch_of, depth_of, family_of, set_flag, reply_text};

use crate::number::number_of;
use crate::unquote::text_value;
use bstr::BString;
use std::alloc::{AllocError, Global};

/// The reply to an option.
#[derive(Clone, Copy, Debug, PartialEq, Eq)]
pub enum OptionReply {
    /// The option is set.
    Ok,
    /// The helper doesn't have this option.
    Unsupported,
    /// The value can't be parsed.
    Error,
}

impl OptionReply {
    /// The line of the reply.
    pub fn to_text(self) -> &'static [u8]
        ensures { result.now ≡ reply_text self }
    {
        match self {
            OptionReply::Ok => b"ok\n",
            OptionReply::Unsupported => b"unsupported\n",
            OptionReply::Error => b"error the value is malformed\n",
        }
    }
}

/// The depth of a fetch.
#[derive(Clone, Copy, Debug, PartialEq, Eq)]
pub enum Depth {
    /// No depth.
    Any,
    /// This many commits.
    Commits(u32),
    /// The whole history, also where the repository is shallow.
    All,
}

/// Which addresses of a server are used (git-fetch, `--ipv4`, `--ipv6`).
#[derive(Clone, Copy, Debug, PartialEq, Eq)]
pub enum Family {
    /// All addresses.
    All,
    /// Only IPv4 addresses.
    Ipv4,
    /// Only IPv6 addresses.
    Ipv6,
}

/// The options that git set.
#[derive(Debug, Drop, PartialEq, Eq)]
pub struct HelperOptions {
    /// Only errors are shown.
    pub is_quiet: bool,
    /// Progress is shown.
    pub shows_progress: bool,
    /// The depth.
    pub depth: Depth,
    /// The depth counts from the shallow boundary.
    pub is_relative: bool,
    /// The oldest time of a commit, as the user wrote it.
    pub since: Option<BString>,
    /// Refs whose history is excluded.
    pub excluded: Vec<BString>,
    /// Annotated tags are fetched with the objects they point to.
    pub follows_tags: bool,
    /// The repository is being cloned.
    pub is_cloning: bool,
    /// git wants to know whether the received objects are connected.
    pub check_connectivity: bool,
    /// The server's shallow boundary may be taken over.
    pub updates_shallow: bool,
    /// A shallow server is rejected.
    pub rejects_shallow: bool,
    /// The hash function is listed with the refs.
    pub lists_format: bool,
    /// All objects are fetched again.
    pub is_refetch: bool,
    /// The object filter (git-rev-list, `--filter`).
    pub filter: Option<BString>,
    /// The remote is a promisor remote: received objects may link to objects that the server
    /// promised.
    pub is_from_promisor: bool,
    /// Which addresses of the server are used.
    pub family: Family,
}

fn switch_of(value: &[u8]) -> Option<bool>
    ensures { result ≡ switch_of value.now }
{
    if value == b"true".as_slice() {
        Some(true)
    } else if value == b"false".as_slice() {
        Some(false)
    } else {
        None
    }
}

// A depth. For the whole history git sends 2^31 - 1, and for no depth 0.
fn depth_of(value: &[u8]) -> Option<Depth>
    ensures { result ≡ depth_of value.now }
{
    match number_of(value) {
        Some(0) => Some(Depth::Any),
        Some(2147483647) => Some(Depth::All),
        Some(number) => Some(Depth::Commits(number)),
        None => None,
    }
}

fn family_of(value: &[u8]) -> Option<Family>
    ensures { result ≡ family_of value.now }
{
    if value == b"ipv4".as_slice() {
        Some(Family::Ipv4)
    } else if value == b"ipv6".as_slice() {
        Some(Family::Ipv6)
    } else if value == b"all".as_slice() {
        Some(Family::All)
    } else {
        None
    }
}

// Sets a boolean option.
fn set_flag(flag: &mut bool, value: &[u8]) -> OptionReply
    ensures { (flag.new, result) ≡ set_flag flag.old value.now }
{
    match switch_of(value) {
        Some(is_chosen) => {
            *flag = is_chosen;
            OptionReply::Ok
        }
        None => OptionReply::Error,
    }
}

fn limits(depth: Depth) -> bool
    ensures { result ≡ limits depth }
{
    match depth {
        Depth::Any => false,
        Depth::Commits(_) | Depth::All => true,
    }
}

impl HelperOptions {
    /// The options before git sets any.
    pub fn new(alloc: Global) -> HelperOptions
        ensures { options_value result ≡ default_options }
    {
        HelperOptions {
            is_quiet: false,
            shows_progress: false,
            depth: Depth::Any,
            is_relative: false,
            since: None,
            excluded: Vec::new(alloc),
            follows_tags: false,
            is_cloning: false,
            check_connectivity: false,
            updates_shallow: false,
            rejects_shallow: false,
            lists_format: false,
            is_refetch: false,
            filter: None,
            is_from_promisor: false,
            family: Family::All,
        }
    }

    /// Whether progress is shown.
    pub fn wants_progress(&self) -> bool
        ensures { result ≡ (self.now.shows_progress && not self.now.is_quiet) }
    {
        self.shows_progress && !self.is_quiet
    }

    /// Whether any depth, time or excluded ref is set.
    pub fn has_depth(&self) -> bool
        ensures { result ≡ has_depth (options_value self.now) }
    {
        limits(self.depth) || self.since.is_some() || !self.excluded.is_empty()
    }

    /// Whether connectivity is to be checked. Not with a depth or a promisor remote, since objects
    /// are missing on purpose then.
    pub fn wants_connectivity(&self) -> bool
        ensures { result ≡ wants_connectivity (options_value self.now) }
    {
        self.check_connectivity && !self.has_depth() && !self.is_from_promisor
    }

    // Sets a boolean option. `None` if there isn't one of this name.
    fn set_switch(&mut self, name: &[u8], value: &[u8]) -> Option<OptionReply>
        ensures set { option_map (λ reply. (options_value self.new, reply)) result ≡ with_switch (options_value self.old) name.now value.now }
        ensures unchanged { IfNone result (self.new ≡ self.old) }
    {
        if name == b"progress".as_slice() {
            Some(set_flag(&mut self.shows_progress, value))
        } else if name == b"followtags".as_slice() {
            Some(set_flag(&mut self.follows_tags, value))
        } else if name == b"cloning".as_slice() {
            Some(set_flag(&mut self.is_cloning, value))
        } else if name == b"check-connectivity".as_slice() {
            Some(set_flag(&mut self.check_connectivity, value))
        } else if name == b"update-shallow".as_slice() {
            Some(set_flag(&mut self.updates_shallow, value))
        } else if name == b"deepen-relative".as_slice() {
            Some(set_flag(&mut self.is_relative, value))
        } else if name == b"refetch".as_slice() {
            Some(set_flag(&mut self.is_refetch, value))
        } else {
            None
        }
    }

    fn set_since(&mut self, alloc: Global, value: &[u8]) -> Result<OptionReply, AllocError>
        ensures set { IfOk result (λ reply. (options_value self.new, reply) ≡ with_since (options_value self.old) (text_value value.now)) }
        ensures failed { OnErr result (options_value self.new ≡ options_value self.old) }
    {
        match text_value(alloc, value)? {
            Some(since) => {
                self.since = Some(since);
                Ok(OptionReply::Ok)
            }
            None => Ok(OptionReply::Error),
        }
    }

    fn exclude(&mut self, alloc: Global, value: &[u8]) -> Result<OptionReply, AllocError>
        ensures set { IfOk result (λ reply. (options_value self.new, reply) ≡ with_excluded (options_value self.old) (text_value value.now)) }
        ensures failed { OnErr result (options_value self.new ≡ options_value self.old) }
    {
        match text_value(alloc, value)? {
            Some(name) => {
                self.excluded.push(name)?;
                Ok(OptionReply::Ok)
            }
            None => Ok(OptionReply::Error),
        }
    }

    fn set_filter(&mut self, alloc: Global, value: &[u8]) -> Result<OptionReply, AllocError>
        ensures set { IfOk result (λ reply. (options_value self.new, reply) ≡ with_filter (options_value self.old) (text_value value.now)) }
        ensures failed { OnErr result (options_value self.new ≡ options_value self.old) }
    {
        match text_value(alloc, value)? {
            Some(filter) => {
                self.filter = Some(filter);
                Ok(OptionReply::Ok)
            }
            None => Ok(OptionReply::Error),
        }
    }

    // Sets an option about the history or the objects. `None` if there isn't one of this name.
    fn set_history(
        &mut self,
        alloc: Global,
        name: &[u8],
        value: &[u8],
    ) -> Result<Option<OptionReply>, AllocError>
        ensures set { IfOk result (λ found. option_map (λ reply. (options_value self.new, reply)) found
            ≡ with_history (options_value self.old) name.now value.now) }
        ensures unchanged { IfOk result (λ found. IfNone found (options_value self.new ≡ options_value self.old)) }
        ensures failed { OnErr result (options_value self.new ≡ options_value self.old) }
    {
        if name == b"depth".as_slice() {
            match depth_of(value) {
                Some(depth) => {
                    self.depth = depth;
                    Ok(Some(OptionReply::Ok))
                }
                None => Ok(Some(OptionReply::Error)),
            }
        } else if name == b"deepen-since".as_slice() {
            Ok(Some(self.set_since(alloc, value)?))
        } else if name == b"deepen-not".as_slice() {
            Ok(Some(self.exclude(alloc, value)?))
        } else if name == b"filter".as_slice() {
            Ok(Some(self.set_filter(alloc, value)?))
        } else {
            Ok(None)
        }
    }

    fn set_other(&mut self, name: &[u8], value: &[u8]) -> OptionReply
        ensures { (options_value self.new, result) ≡ with_other (options_value self.old) name.now value.now }
    {
        if name == b"verbosity".as_slice() {
            self.is_quiet = value == b"0".as_slice();
            OptionReply::Ok
        } else if name == b"rejectshallow".as_slice() {
            self.rejects_shallow = true;
            OptionReply::Ok
        } else if name == b"from-promisor".as_slice() {
            self.is_from_promisor = true;
            OptionReply::Ok
        } else if name == b"object-format".as_slice() {
            self.set_format(value)
        } else if name == b"family".as_slice() {
            self.set_family(value)
        } else {
            OptionReply::Unsupported
        }
    }

    fn set_family(&mut self, value: &[u8]) -> OptionReply
        ensures { (options_value self.new, result) ≡ with_family (options_value self.old) (family_of value.now) }
    {
        match family_of(value) {
            Some(family) => {
                self.family = family;
                OptionReply::Ok
            }
            None => OptionReply::Error,
        }
    }

    // Sets the hash function. git 2.39 sends an empty value to have it listed.
    fn set_format(&mut self, value: &[u8]) -> OptionReply
        ensures { (options_value self.new, result) ≡ with_format (options_value self.old) value.now }
    {
        if value == b"true".as_slice() || value == b"".as_slice() {
            self.lists_format = true;
            OptionReply::Ok
        } else if value == b"sha1".as_slice() {
            OptionReply::Ok
        } else {
            OptionReply::Unsupported
        }
    }

    /// Sets an option. The other options are unchanged.
    ///
    /// # Errors
    ///
    /// Only when an allocation fails. No option is changed then.
    pub fn set(
        &mut self,
        alloc: Global,
        name: &[u8],
        value: &[u8],
    ) -> Result<OptionReply, AllocError>
        ensures set { IfOk result (λ reply. (options_value self.new, reply) ≡ with_option (options_value self.old) name.now value.now) }
        ensures failed { OnErr result (options_value self.new ≡ options_value self.old) }
    {
        if let Some(reply) = self.set_switch(name, value) {
            return Ok(reply);
        }
        if let Some(reply) = self.set_history(alloc, name, value)? {
            return Ok(reply);
        }
        Ok(self.set_other(name, value))
    }
}
