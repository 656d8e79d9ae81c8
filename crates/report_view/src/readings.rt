//! The texts from which a log is made, read whole from their streams.

ghost use Rattle.std.specs.Prelude.{◌⊎◌, IfOk, IsErrOf};
ghost use Rattle.tm_io.specs.Faults.{Rose};
ghost use Rattle.program_streams.specs.Streams.{IsRead};
ghost use Rattle.report_view.specs.Answers.{AllAreRead};
ghost use Rattle.report_view.specs.reading.Seen.{answers_read};

use program_streams::{InputError, read_whole};
use report_views::{LONGEST_REPORT, LONGEST_TEXT};
use std::alloc::Global;
use tm_io::Source;

/// The texts from which a log is made: the report, the text that it is of, those of the waits, of the dead places, of the
/// assumptions and of the ways, and the lines of the files from which those of the text come.
#[derive(Drop)]
pub struct Readings {
    pub report: Vec<u8>,
    pub text: Vec<u8>,
    pub waits: Vec<u8>,
    pub dead: Vec<u8>,
    pub assumptions: Vec<u8>,
    pub ways: Vec<u8>,
    pub lines: Vec<u8>,
}

/// The bytes of a stream, to its end or until they are `most`.
pub fn read_one<S: Source>(
    alloc: Global,
    source: &mut S,
    most: usize,
) -> Result<Vec<u8>, InputError>
    ensures read { IfOk result (λ bytes. IsRead (S.left source.old) (S.left source.new) most bytes.items) }
    ensures failed { IsErrOf result InputError.Failed → Rose (S.faults source.old) (S.faults source.new) }
{
    let mut bytes = Vec::new(alloc);
    read_whole(source, &mut bytes, most)?;
    Ok(bytes)
}

/// The texts from which a log is made, each to the end of its stream, or past the most that it may have.
pub fn read_texts<R: Source, T: Source, W: Source, D: Source, A: Source, P: Source, L: Source>(
    alloc: Global,
    report: &mut R,
    text: &mut T,
    waits: &mut W,
    dead: &mut D,
    assumptions: &mut A,
    ways: &mut P,
    lines: &mut L,
) -> Result<Readings, InputError>
    ensures read { IfOk result (λ readings. AllAreRead (R.left report.old) (R.left report.new)
        (T.left text.old) (T.left text.new) (W.left waits.old) (W.left waits.new) (D.left dead.old) (D.left dead.new)
        (A.left assumptions.old) (A.left assumptions.new) (P.left ways.old) (P.left ways.new)
        (L.left lines.old) (L.left lines.new) (answers_read readings) readings.text.items readings.lines.items) }

    // A stream failed: its count of faults rose.
    ensures failed { IsErrOf result InputError.Failed → Rose (R.faults report.old) (R.faults report.new)
        ⊎ (Rose (T.faults text.old) (T.faults text.new) ⊎ (Rose (W.faults waits.old) (W.faults waits.new)
        ⊎ (Rose (D.faults dead.old) (D.faults dead.new) ⊎ (Rose (A.faults assumptions.old) (A.faults assumptions.new)
        ⊎ (Rose (P.faults ways.old) (P.faults ways.new) ⊎ Rose (L.faults lines.old) (L.faults lines.new)))))) }
{
    let report = read_one(alloc, report, LONGEST_REPORT + 1)?;
    let text = read_one(alloc, text, LONGEST_TEXT + 1)?;
    let waits = read_one(alloc, waits, LONGEST_REPORT + 1)?;
    let dead = read_one(alloc, dead, LONGEST_REPORT + 1)?;
    let assumptions = read_one(alloc, assumptions, LONGEST_REPORT + 1)?;
    let ways = read_one(alloc, ways, LONGEST_REPORT + 1)?;
    let lines = read_one(alloc, lines, LONGEST_REPORT + 1)?;
    Ok(Readings {
        report,
        text,
        waits,
        dead,
        assumptions,
        ways,
        lines,
    })
}
