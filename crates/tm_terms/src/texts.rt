//! The lines that the program writes: a report, a refusal, and how it is used.

ghost use Rattle.std.specs.Prelude.{◌≡◌, ◌++◌, IfOk, OnOk, string_bytes};
ghost use Rattle.tm_terms.specs.Texts.{alarm_line, class_text, count_line, kind_line, kind_text, limit_line};
ghost use Rattle.tm_terms.specs.Texts.{place_head};
ghost use Rattle.tm_terms.specs.Texts.{limit_text, refusal_text, report_text, usage_text};

use crate::alarms::{Alarm, Report};
use crate::places::Place;
use crate::refusals::{Kind, Limit, Refusal};
use std::alloc::Global;
use tm_cint::Class;
use tm_lattice::NoMemory;

/// The word of an error class in a report.
pub fn class_word(class: Class) -> &'static str
    ensures { result.now ≡ class_text class }
{
    match class {
        Class::Overflow => "OVERFLOW",
        Class::Div => "DIV",
        Class::Shift => "SHIFT",
        Class::Index => "INDEX",
        Class::Pointer => "POINTER",
        Class::Deref => "DEREF",
        Class::Lock => "LOCK",
        Class::Race => "RACE",
    }
}

/// The word of a kind in a refusal.
fn kind_word(kind: Kind) -> &'static str
    ensures { result.now ≡ kind_text kind }
{
    match kind {
        Kind::Lexical => "Lexical",
        Kind::Unsupported => "Unsupported",
        Kind::Deep => "Deep",
        Kind::Syntax => "Syntax",
        Kind::Undeclared => "Undeclared",
        Kind::Redeclared => "Redeclared",
        Kind::Mismatch => "Mismatch",
        Kind::NotConstant => "NotConstant",
        Kind::NotLvalue => "NotLvalue",
        Kind::NoBody => "NoBody",
        Kind::Recursive => "Recursive",
        Kind::BadTask => "BadTask",
        Kind::Limit => "Limit",
    }
}

/// The word of a limit in a refusal.
pub fn limit_word(limit: Limit) -> &'static str
    ensures { result.now ≡ limit_text limit }
{
    match limit {
        Limit::Source => "source",
        Limit::Tokens => "tokens",
        Limit::Tasks => "tasks",
        Limit::Mutexes => "mutexes",
        Limit::Paths => "paths",
        Limit::Cells => "cells",
        Limit::Abstract => "abstract",
        Limit::Nodes => "nodes",
        Limit::Work => "work",
    }
}

/// Appends the line of an alarm.
fn push_alarm(text: &mut String, alarm: Alarm) -> Result<(), NoMemory>
    ensures { OnOk result (string_bytes text.new ≡ string_bytes text.old ++ alarm_line alarm) }
{
    let line = alarm.place.line;
    let col = alarm.place.col;
    let class = class_word(alarm.class);
    match write!(text, "{line}:{col} {class}\n") {
        Ok(()) => Ok(()),
        Err(_) => Err(NoMemory),
    }
}

/// Appends the line that ends a report: how many alarms it has.
fn push_count(text: &mut String, count: usize) -> Result<(), NoMemory>
    ensures { OnOk result (string_bytes text.new ≡ string_bytes text.old ++ count_line count) }
{
    match write!(text, "alarms {count}\n") {
        Ok(()) => Ok(()),
        Err(_) => Err(NoMemory),
    }
}

/// The report as text: a line for each alarm, and then their number.
pub fn plain(alloc: Global, report: &Report) -> Result<String, NoMemory>
    ensures { IfOk result (λ text. string_bytes text ≡ report_text report.now.alarms.items) }
{
    let mut text = String::new(alloc);
    for alarm in &report.alarms {
        push_alarm(&mut text, *alarm)?;
    }
    push_count(&mut text, report.alarms.len())?;
    Ok(text)
}

/// A place, with a blank behind it.
pub fn place_head(alloc: Global, place: Place) -> Result<String, NoMemory>
    ensures { IfOk result (λ text. string_bytes text ≡ place_head place) }
{
    let line = place.line;
    let col = place.col;
    match format!(in alloc; "{line}:{col} ") {
        Ok(text) => Ok(text),
        Err(_) => Err(NoMemory),
    }
}

/// The line of a refusal that no limit makes.
fn kind_line(alloc: Global, place: Place, kind: Kind) -> Result<String, NoMemory>
    ensures { IfOk result (λ text. string_bytes text ≡ kind_line place kind) }
{
    let line = place.line;
    let col = place.col;
    let word = kind_word(kind);
    match format!(in alloc; "{line}:{col} refused {word}\n") {
        Ok(text) => Ok(text),
        Err(_) => Err(NoMemory),
    }
}

/// The line of a refusal that a limit makes.
fn limit_line(alloc: Global, limit: Limit) -> Result<String, NoMemory>
    ensures { IfOk result (λ text. string_bytes text ≡ limit_line limit) }
{
    let word = limit_word(limit);
    let number = limit.number();
    match format!(in alloc; "refused Limit {word} {number}\n") {
        Ok(text) => Ok(text),
        Err(_) => Err(NoMemory),
    }
}

/// The refusal as text: its limit and the limit's number, or else its place and kind.
pub fn refusal_line(alloc: Global, refusal: &Refusal) -> Result<String, NoMemory>
    ensures { IfOk result (λ text. string_bytes text ≡ refusal_text refusal.now) }
{
    match refusal.limit {
        Some(limit) => limit_line(alloc, limit),
        None => kind_line(alloc, refusal.place, refusal.kind),
    }
}

/// How the program is used.
pub fn usage_line() -> &'static str
    ensures { result.now ≡ usage_text }
{
    "usage: COMMAND [OPTIONS] < source\n"
}
