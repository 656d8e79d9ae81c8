//! What all rules say, as lines.

ghost use Rattle.std.specs.Prelude.{◌≡◌, ◌++◌, IfOk, OnOk, string_bytes};
ghost use Rattle.report_views.specs.Rules.{rule_words, rules_text};

use crate::sentences::{RULES, Rule, level, rule_help, rule_sentence, rule_word};
use std::alloc::{AllocError, Global};
use tm_lattice::NoMemory;

/// The line of a rule.
fn rule_words(alloc: Global, rule: Rule) -> Result<String, AllocError>
    ensures { IfOk result (λ line. string_bytes line ≡ rule_words rule) }
{
    let word = rule_word(rule);
    let level = level(rule);
    let said = rule_sentence(rule);
    let helps = rule_help(rule);
    format!(in alloc; "{word} {level} {said}: {helps}\n")
}

/// Adds the line of a rule.
fn push_rule(alloc: Global, text: &mut Vec<u8>, rule: Rule) -> Result<(), AllocError>
    ensures { OnOk result (text.new.items ≡ text.old.items ++ rule_words rule) }
{
    let line = rule_words(alloc, rule)?;
    text.extend_from_slice(line.as_bytes())?;
    Ok(())
}

/// A line for each rule.
fn rules_text(alloc: Global) -> Result<Vec<u8>, AllocError>
    ensures { IfOk result (λ text. text.items ≡ rules_text) }
{
    let mut text = Vec::new(alloc);
    for rule in &RULES {
        push_rule(alloc, &mut text, *rule)?;
    }
    Ok(text)
}

/// What all rules say, and what helps against what they find: a line for each.
pub fn rule_lines(alloc: Global) -> Result<Vec<u8>, NoMemory>
    ensures { IfOk result (λ text. text.items ≡ rules_text) }
{
    match rules_text(alloc) {
        Ok(text) => Ok(text),
        Err(_) => Err(NoMemory),
    }
}
