//! The option of a fetch that decides which tags are mapped.
ghost use Rattle.std.specs.Prelude.{◌≡◌};
ghost use Rattle.std.specs.Option.{option_map};
ghost use Rattle.gixp_refspec.specs.RefSpec.{value_of};
ghost use Rattle.gixp_refmap.specs.Tags.{tags_asked};

use bstr::BStr;
use gixp_refspec::RefSpecRef;
use gixp_refspec::parse::{Operation, parse};

/// Which tags a fetch brings (git-fetch, "--tags" and "--no-tags").
#[derive(Clone, Copy, Debug, Default, PartialEq, Eq)]
pub enum Tags {
    /// All tags of the server.
    All,
    /// The tags that point at objects that are fetched.
    #[default]
    Included,
    /// Only tags that a refspec names.
    None,
}

impl Tags {
    /// The refspec that maps the tags: `refs/tags/*:refs/tags/*` for `All` and `Included`, none for `None`. It
    /// allocates nothing.
    pub fn to_refspec(&self) -> Option<RefSpecRef<'static>>
        ensures { option_map value_of result ≡ tags_asked self.now }
    {
        match self {
            Tags::All => tags_refspec(),
            Tags::Included => tags_refspec(),
            Tags::None => None,
        }
    }
}

fn tags_refspec() -> Option<RefSpecRef<'static>>
    ensures { option_map value_of result ≡ tags_asked Tags.All }
{
    match parse(BStr::new(b"refs/tags/*:refs/tags/*"), Operation::Fetch) {
        Ok(spec) => Some(spec),
        Err(_) => None,
    }
}
