//! Reports the progress of a fetch.
ghost use Rattle.std.specs.Prelude.{◌≡◌, ◌+◌, ◌∷◌, [], OnOk, OnErr, length};
ghost use Rattle.std.specs.String.{string_bytes};
ghost use Rattle.gixp_progress.specs.Progress.{ReportedCalls, step, set_name};
ghost use Rattle.gixp_fetch.specs.FetchProgress.{round_calls, pack_calls};

use gixp_negotiate::negotiate::Round;
use gixp_progress::Progress;
use std::alloc::{AllocError, Global};

// Reports one more step, with this name.
fn tell_step<P: Progress>(progress: &mut P, name: String)
    ensures { ReportedCalls P.reported progress.old (step ∷ set_name (string_bytes name) ∷ []) progress.new }
{
    progress.step();
    progress.set_name(name);
}

/// Reports a new round after these. If the name can't be allocated, nothing is reported.
pub(crate) fn tell_round<P: Progress>(
    alloc: Global,
    progress: &mut P,
    rounds: &[Round],
) -> Result<(), AllocError>
    ensures ok { OnOk result (ReportedCalls P.reported progress.old (round_calls (length rounds.now + 1)) progress.new) }
    ensures err { OnErr result (progress.new ≡ progress.old) }
{
    let round = rounds.len() + 1;
    let name = format!(in alloc; "negotiate (round {round})")?;
    tell_step(progress, name);
    Ok(())
}

/// Reports that a pack is received. If the name can't be allocated, nothing is reported.
pub(crate) fn tell_pack<P: Progress>(alloc: Global, progress: &mut P) -> Result<(), AllocError>
    ensures ok { OnOk result (ReportedCalls P.reported progress.old pack_calls progress.new) }
    ensures err { OnErr result (progress.new ≡ progress.old) }
{
    let name = String::from_str(alloc, "receiving pack")?;
    tell_step(progress, name);
    Ok(())
}
