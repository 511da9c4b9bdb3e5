//! The names of a mapping as programs print them.
ghost use Rattle.std.specs.Prelude.{◌≡◌};
ghost use Rattle.std.specs.Option.{option_map};
ghost use Rattle.bstr.specs.Owned.{bstring_bytes};
ghost use Rattle.gixp_refmap.specs.Mapping.{source_name};
ghost use Rattle.gixp_refmap.specs.MappingNames.{name_or_dash};

use crate::refmap::Source;
use bstr::BString;

/// The name of the ref that is fetched, or `-` where it has none.
#[inline(always)]
pub fn remote_name(source: &Source) -> &[u8]
    ensures { result.now ≡ name_or_dash (source_name source.now) }
{
    match source.as_name() {
        Some(name) => name.as_bytes(),
        None => b"-",
    }
}

/// The name of the local ref, or `-` where there is none.
#[inline(always)]
pub fn local_name(local: &Option<BString>) -> &[u8]
    ensures { result.now ≡ name_or_dash (option_map bstring_bytes local.now) }
{
    match local {
        Some(name) => name.as_bytes(),
        None => b"-",
    }
}
