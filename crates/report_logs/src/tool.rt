//! The tool, in the format SARIF 2.1.0, with all its rules.

ghost use Rattle.std.specs.Prelude.{map, OnOk};
ghost use Rattle.serde_json.specs.Data.{array};
ghost use Rattle.serde_json.specs.View.{items_of};
ghost use Rattle.report_views.specs.Sentences.{rules};
ghost use Rattle.report_logs.specs.Sarif.{driver_data, rule_data};
ghost use Rattle.report_logs.specs.reading.Written.{AppendsValue};

use crate::uris::help_uri;
use crate::writing::{write_string, write_text};
use json::Writer;
use report_views::{RULES, Rule, level, rule_help, rule_sentence, rule_word};
use std::alloc::{AllocError, Global};

/// Writes a rule.
fn write_rule(
    alloc: Global,
    out: &mut Writer,
    documents: &[u8],
    rule: Rule,
) -> Result<(), AllocError>
    ensures { OnOk result (AppendsValue out.old out.new (rule_data documents.now rule)) }
{
    let explained = help_uri(alloc, documents, rule)?;
    out.begin_object()?;
    out.key("defaultConfiguration")?;
    out.begin_object()?;
    write_string(out, "level", level(rule))?;
    out.end_object()?;
    out.key("help")?;
    write_text(out, rule_help(rule))?;
    write_string(out, "helpUri", explained.as_str())?;
    write_string(out, "id", rule_word(rule))?;
    out.key("shortDescription")?;
    write_text(out, rule_sentence(rule))?;
    out.end_object()
}

/// Writes all rules.
fn write_rules(alloc: Global, out: &mut Writer, documents: &[u8]) -> Result<(), AllocError>
    ensures { OnOk result (AppendsValue out.old out.new
        (array (items_of (map (rule_data documents.now) rules)))) }
{
    out.begin_array()?;
    for rule in &RULES {
        write_rule(alloc, out, documents, *rule)?;
    }
    out.end_array()
}

/// Writes the tool.
pub fn write_driver(alloc: Global, out: &mut Writer, documents: &[u8]) -> Result<(), AllocError>
    ensures { OnOk result (AppendsValue out.old out.new (driver_data documents.now)) }
{
    out.begin_object()?;
    write_string(out, "name", "Cedratcleat")?;
    out.key("rules")?;
    write_rules(alloc, out, documents)?;
    write_string(out, "semanticVersion", "1.0.0")?;
    write_string(out, "version", "1.0.0")?;
    out.end_object()
}
