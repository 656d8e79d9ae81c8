//! Members of JSON, written one behind the other.

ghost use Rattle.std.specs.Prelude.{OnOk};
ghost use Rattle.serde_json.specs.Data.{number as number_data, string as string_data, unsigned};
ghost use Rattle.report_logs.specs.Sarif.{text_data};
ghost use Rattle.report_logs.specs.reading.Written.{Appends, AppendsValue, member_tokens};

use json::Writer;
use std::alloc::AllocError;

/// Writes a member that is a text.
pub fn write_string(out: &mut Writer, name: &str, text: &str) -> Result<(), AllocError>
    ensures { OnOk result (Appends out.old out.new (member_tokens name.now (string_data text.now))) }
{
    out.key(name)?;
    out.string(text)
}

/// Writes a member that is a number.
pub fn write_number(out: &mut Writer, name: &str, number: u64) -> Result<(), AllocError>
    ensures { OnOk result (Appends out.old out.new (member_tokens name.now (number_data (unsigned number)))) }
{
    out.key(name)?;
    out.u64(number)
}

/// Writes an object whose one member is a text.
pub fn write_text(out: &mut Writer, text: &str) -> Result<(), AllocError>
    ensures { OnOk result (AppendsValue out.old out.new (text_data text.now)) }
{
    out.begin_object()?;
    write_string(out, "text", text)?;
    out.end_object()
}
