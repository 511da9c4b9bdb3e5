//! Theorems about the definitions that contracts cite. A function without a body states each; a caller that needs one calls it.
ghost use Rattle.gixp_progress.specs.Laws.{RunIsFirst, RunIsOnly, NumberByPlaces};

/// The first run of digits of a text is unique: no digit precedes it and no digit follows it. Its digits write a decimal number.
pub fn runs_are_longest()
    ensures first { RunIsFirst }
    ensures only { RunIsOnly }
    ensures places { NumberByPlaces }
{}
