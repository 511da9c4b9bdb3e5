//! The refspecs of a plan.
ghost use Rattle.std.specs.Prelude.{map, Ok};
ghost use Rattle.bstr.specs.Owned.{bstring_bytes};
ghost use Rattle.gixp_planner.specs.Specs.{ReadsSpec, ReadsSpecs};

use crate::error::PlanError;
use crate::names::spec_variant;
use bstr::BString;
use gix_protocol::fetch::refmap::init::Context;
use gix_protocol::refspec::RefSpec;
use gix_protocol::refspec::parse::{Operation, parse};
use std::alloc::Global;

fn read_spec(alloc: Global, text: &BString) -> Result<RefSpec, PlanError>
    ensures { ReadsSpec (bstring_bytes text.now) result }
{
    match parse(text.as_bstr(), Operation::Fetch) {
        Ok(spec) => match spec.to_owned(alloc) {
            Ok(spec) => Ok(spec),
            Err(_) => Err(PlanError::memory("spec")),
        },
        Err(e) => Err(PlanError::new("spec", spec_variant(&e))),
    }
}

pub(crate) fn read_specs(alloc: Global, texts: &[BString]) -> Result<Context, PlanError>
    ensures { ReadsSpecs (map bstring_bytes texts.now) result }
{
    let mut specs = Vec::new(alloc);
    for text in texts {
        let spec = read_spec(alloc, text)?;
        match specs.push(spec) {
            Ok(()) => {}
            Err(_) => return Err(PlanError::memory("spec")),
        }
    }
    Ok(Context {
        fetch_refspecs: specs,
        extra_refspecs: Vec::new(alloc),
    })
}
