//! The laws of what is written. They speak of definitions alone: no call is made.

ghost use Rattle.source_findings.specs.Certificates.{WrittenIsCertified};
ghost use Rattle.source_findings.specs.RefusalTexts.{UsualRefusalsAreToldAlike};

/// Each certificate that `certify` wrote in full is certified by `check`, which writes before the word `certified` the
/// report of the least solution of the source, as `analyse` does.
pub fn written_is_certified()
    ensures { WrittenIsCertified }
{}

/// On the usual scale a refusal has the text that the commands write.
pub fn usual_refusals_are_told_alike()
    ensures { UsualRefusalsAreToldAlike }
{}
