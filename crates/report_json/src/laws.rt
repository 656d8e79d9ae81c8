//! The laws of the report as JSON, each the contract of a function that does nothing.

ghost use Rattle.report_json.specs.Laws.{OneReport, OneText, ReadsBack};

/// A reader of JSON takes the line of a report for the value of its alarms.
pub fn text_is_read_back()
    ensures { ReadsBack }
{}

/// The value that a reader of JSON takes a report for is that of no other report.
pub fn one_report()
    ensures { OneReport }
{}

/// The text of a report is that of no other report.
pub fn one_text()
    ensures { OneText }
{}
