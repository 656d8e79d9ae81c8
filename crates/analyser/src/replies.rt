//! The status and the text that a command answers with.

ghost use Rattle.std.specs.Prelude.{◌≡◌, ◌++◌, IfOk, false, string_bytes};
ghost use Rattle.big_source.specs.GeneratedSources.{source_text, summary_text};
ghost use Rattle.tm_terms.specs.Texts.{refusal_text};
ghost use Rattle.analyser.specs.Headline.{HasAnswer, HasSummary, IsGenerated, IsReplayed, replay_status};
ghost use Rattle.analyser.specs.Headline.{report_lines};
ghost use Rattle.analyser.specs.reading.Asked.{AskedGives, IsAnswerable};
ghost use Rattle.analyser.specs.reading.Replies.{IsFound, TellsAlarms};

use crate::solvers::{Manner, Solved, Solver};
use big_source::{big_source, summary};
use cmd_words::{AnalyseWords, DemoWords};
use program_streams::Status;
use report_json::report_json;
use source_findings::{Finding, FindingReply, certificate_of, finding_of};
use source_replays::{Outcome, replay, source_program};
use std::alloc::Global as Heap;
use tm_lattice::NoMemory;
use tm_terms::{Fail, Refusal, Report, plain as plain_text, refusal_line};
use worker_solutions::Analysis;

/// A status and the whole text that goes with it.
#[derive(Drop)]
pub struct Reply {
    pub status: Status,
    pub text: String,
}

/// What a command asks about the bytes of a source.
#[derive(Drop)]
pub enum Asked {
    /// The report of its least solution.
    Report(AnalyseWords),
    /// How its run goes by the choices behind it.
    Replay,
    /// What its least solution tells.
    Solution(Finding),
    /// Itself with its least solution.
    Certificate,
}

/// What is found of the bytes of a source.
#[derive(Drop)]
pub enum Found {
    /// They are accepted, and this is the report.
    Reported(Solved),
    /// They are refused.
    Refused(Refusal),
}

/// What is found of the bytes of a source, with these numbers given as thresholds.
fn report_of<V: Solver>(
    solver: &V,
    alloc: Heap,
    bytes: &[u8],
    given: &[u32],
    manner: Manner,
) -> Result<Found, NoMemory>
    requires { V.serves solver.now manner.workers manner.history }
    ensures { IfOk result (IsFound given.now manner.workers manner.history bytes.now) }
{
    match source_program(alloc, bytes, given) {
        Ok(program) => {
            let analysis = Analysis::new(alloc, program)?;
            let found = solver.solve(alloc, analysis, manner)?;
            Ok(Found::Reported(found))
        }
        Err(Fail::Refused(refusal)) => Ok(Found::Refused(refusal)),
        Err(Fail::NoMemory) => Err(NoMemory),
    }
}

/// The line of a refusal.
fn refused(alloc: Heap, refusal: Refusal) -> Result<Reply, NoMemory>
    ensures status { IfOk result (λ reply. reply.status ≡ Status.Refused) }
    ensures text { IfOk result (λ reply. string_bytes reply.text ≡ refusal_text refusal) }
{
    let text = refusal_line(alloc, &refusal)?;
    Ok(Reply {
        status: Status::Refused,
        text,
    })
}

/// Whether the report has an alarm.
fn report_status(report: &Report) -> Status
    ensures { TellsAlarms report.now.alarms.items result }
{
    if report.alarms.is_empty() {
        Status::NoAlarm
    } else {
        Status::Alarms
    }
}

/// The lines of a report.
fn lines_of_report(alloc: Heap, report: &Report, json: bool) -> Result<String, NoMemory>
    ensures { IfOk result (λ text. string_bytes text ≡ report_lines json report.now.alarms.items) }
{
    if json {
        report_json(alloc, &report.alarms)
    } else {
        plain_text(alloc, report)
    }
}

/// The lines of a report behind those of a history.
fn whole_text(alloc: Heap, history: String, report: &Report, json: bool) -> Result<String, NoMemory>
    ensures { IfOk result (λ text.
        string_bytes text ≡ string_bytes history ++ report_lines json report.now.alarms.items) }
{
    let lines = lines_of_report(alloc, report, json)?;
    let mut text = history;
    text.push_str(lines.as_str())?;
    Ok(text)
}

/// The answer of `analyse` that is a report, behind the lines of a history.
fn report_reply(alloc: Heap, solved: Solved, json: bool) -> Result<Reply, NoMemory>
    ensures tells { IfOk result (λ reply. TellsAlarms solved.report.alarms.items reply.status) }
    ensures text { IfOk result (λ reply. string_bytes reply.text
        ≡ string_bytes solved.history ++ report_lines json solved.report.alarms.items) }
{
    let Solved { report, history } = solved;
    let text = whole_text(alloc, history, &report, json)?;
    let status = report_status(&report);
    Ok(Reply { status, text })
}

/// The answer of `demo` that tells of a source and its report.
fn summary_reply(alloc: Heap, source: &[u8], report: &Report) -> Result<Reply, NoMemory>
    ensures tells { IfOk result (λ reply. TellsAlarms report.now.alarms.items reply.status) }
    ensures text { IfOk result (λ reply. string_bytes reply.text ≡ summary_text source.now report.now.alarms.items) }
{
    let text = summary(alloc, source, report)?;
    let status = report_status(report);
    Ok(Reply { status, text })
}

/// The answer of `analyse` to the bytes of a source.
fn analysed<V: Solver>(
    solver: &V,
    alloc: Heap,
    asked: &AnalyseWords,
    bytes: &[u8],
) -> Result<Reply, NoMemory>
    requires { V.serves solver.now asked.now.workers asked.now.history }
    ensures { IfOk result (λ reply. HasAnswer asked.now bytes.now reply.status (string_bytes reply.text)) }
{
    let manner = Manner {
        workers: asked.workers,
        history: asked.history,
    };
    match report_of(solver, alloc, bytes, asked.thresholds.as_slice(), manner)? {
        Found::Reported(solved) => report_reply(alloc, solved, asked.json),
        Found::Refused(refusal) => refused(alloc, refusal),
    }
}

/// The answer of `generate`: the source with so many functions.
pub fn generated(alloc: Heap, count: u32) -> Result<Reply, NoMemory>
    ensures { IfOk result (λ reply. IsGenerated count reply.status (string_bytes reply.text)) }
{
    let text = big_source(alloc, count)?;
    Ok(Reply {
        status: Status::NoAlarm,
        text,
    })
}

/// The answer of `demo`: what is told of the source with so many functions, and of its report.
pub fn summarised<V: Solver>(solver: &V, alloc: Heap, asked: DemoWords) -> Result<Reply, NoMemory>
    requires { V.serves solver.now asked.workers false }
    ensures { IfOk result (λ reply. HasSummary (source_text asked.count) reply.status (string_bytes reply.text)) }
{
    let source = big_source(alloc, asked.count)?;
    let manner = Manner {
        workers: asked.workers,
        history: false,
    };
    match report_of(solver, alloc, source.as_bytes(), &[], manner)? {
        Found::Reported(solved) => summary_reply(alloc, source.as_bytes(), &solved.report),
        Found::Refused(refusal) => refused(alloc, refusal),
    }
}

/// The status that goes with what became of a replay.
fn replay_status(outcome: Outcome) -> Status
    ensures { result ≡ replay_status outcome }
{
    match outcome {
        Outcome::Clean => Status::NoAlarm,
        Outcome::Found => Status::Alarms,
        Outcome::Refused => Status::Refused,
    }
}

/// The answer of `replay` to the bytes of a source with choices behind it.
fn replayed(alloc: Heap, bytes: &[u8]) -> Result<Reply, NoMemory>
    ensures { IfOk result (λ reply. IsReplayed bytes.now reply.status (string_bytes reply.text)) }
{
    let reply = replay(alloc, bytes)?;
    Ok(Reply {
        status: replay_status(reply.outcome),
        text: reply.text,
    })
}

/// The same reply, with its text as bytes.
fn in_bytes(reply: Reply) -> FindingReply
    ensures { (result.status ≡ reply.status) × (result.text.items ≡ string_bytes reply.text) }
{
    FindingReply {
        status: reply.status,
        text: reply.text.into_bytes(),
    }
}

/// The answer to what is asked about the bytes of a source.
pub fn answer_to<V: Solver>(
    solver: &V,
    alloc: Heap,
    asked: &Asked,
    bytes: &[u8],
) -> Result<FindingReply, NoMemory>
    requires { IsAnswerable (V.serves solver.now) asked.now }
    ensures { IfOk result (λ reply. AskedGives asked.now bytes.now reply.status reply.text.items) }
{
    match asked {
        Asked::Report(words) => Ok(in_bytes(analysed(solver, alloc, words, bytes)?)),
        Asked::Replay => Ok(in_bytes(replayed(alloc, bytes)?)),
        Asked::Solution(finding) => finding_of(alloc, *finding, bytes),
        Asked::Certificate => certificate_of(alloc, bytes),
    }
}
