//! The answer of `certify`: a source with its least solution, as a certificate.

ghost use Rattle.std.specs.Prelude.{◌≡◌, IfOk};
ghost use Rattle.program_solutions.specs.program_systems.ReadPrograms.{program_of};
ghost use Rattle.source_findings.specs.Certificates.{HasCertificate};
ghost use Rattle.source_findings.specs.Tellings.{TellsCertificateOf};

use crate::findings::{FindingReply, refused};
use certificate_check::{Written, numbers_are_small, source_program, too_long_line, written};
use program_solutions::{Analysis, Solution, solution};
use program_streams::Status;
use std::alloc::Global as Heap;
use tm_lattice::NoMemory;
use tm_terms::Fail;

/// The certificate of a source and its least solution, or that it is too long.
fn certificate_reply(
    alloc: Heap,
    bytes: &[u8],
    analysis: &Analysis,
    found: &Solution,
) -> Result<FindingReply, NoMemory>
    ensures { IfOk result (λ reply.
        TellsCertificateOf (program_of analysis.now) bytes.now found.now reply.status reply.text.items) }
{
    let (program, facts) = analysis.parts();
    numbers_are_small(program, facts);
    match written(alloc, bytes, found.tables(), found.store())? {
        Written::Text(text) => Ok(FindingReply {
            status: Status::NoAlarm,
            text,
        }),
        Written::TooLong => Ok(FindingReply {
            status: Status::Refused,
            text: String::from_str(alloc, too_long_line())?.into_bytes(),
        }),
    }
}

/// The answer of `certify` to the bytes of a source: the source with its least solution, unless that text is too long,
/// or its refusal. The solution is that of one worker, with no numbers given as thresholds.
pub fn certificate_of(alloc: Heap, bytes: &[u8]) -> Result<FindingReply, NoMemory>
    ensures { IfOk result (λ reply. HasCertificate bytes.now reply.status reply.text.items) }
{
    match source_program(alloc, bytes, &[]) {
        Ok(program) => {
            let analysis = Analysis::new(alloc, program)?;
            let found = solution(alloc, &analysis)?;
            certificate_reply(alloc, bytes, &analysis, &found)
        }
        Err(Fail::Refused(refusal)) => refused(alloc, refusal),
        Err(Fail::NoMemory) => Err(NoMemory),
    }
}
