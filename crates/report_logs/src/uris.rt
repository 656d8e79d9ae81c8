//! Names of files as URI references, and where what helps against a rule is explained.

ghost use Rattle.std.specs.Prelude.{◌≡◌, ◌∷◌, ◌++◌, ◌<◌, [], codes, IfOk, OnOk, string_bytes};
ghost use Rattle.report_logs.specs.Uris.{class_section, help_uri, hex_digit, is_plain, kind_section, rule_page};
ghost use Rattle.report_logs.specs.Uris.{uri_byte, uri_text};

use report_reading::AssumptionKind;
use report_views::{Rule, joined};
use std::alloc::{AllocError, Global};
use tm_cint::Class;

/// A digit in base 16.
fn hex_digit(number: u8) -> u8
    requires { number < 16 }
    ensures value { result ≡ hex_digit number }
    ensures ascii { result < 128 }
{
    if number < 10 {
        b'0' + number
    } else {
        b'7' + number
    }
}

/// Whether a byte stands for itself in a URI.
fn is_plain(byte: u8) -> bool
    ensures { result ≡ is_plain byte }
{
    byte.is_ascii_alphanumeric()
        || byte == b'-'
        || byte == b'.'
        || byte == b'_'
        || byte == b'~'
        || byte == b'/'
}

/// Appends an ASCII byte.
fn push_ascii(text: &mut String, byte: u8) -> Result<(), AllocError>
    requires { byte < 128 }
    ensures { OnOk result (string_bytes text.new ≡ string_bytes text.old ++ byte ∷ []) }
{
    text.push(char::from(byte))
}

/// Appends a byte of a name, as a URI has it.
fn push_uri(text: &mut String, byte: u8) -> Result<(), AllocError>
    ensures { OnOk result (string_bytes text.new ≡ string_bytes text.old ++ uri_byte byte) }
{
    if is_plain(byte) {
        push_ascii(text, byte)
    } else {
        push_ascii(text, b'%')?;
        push_ascii(text, hex_digit(byte / 16))?;
        push_ascii(text, hex_digit(byte % 16))
    }
}

/// The name of a file as a URI.
pub fn uri(alloc: Global, name: &[u8]) -> Result<String, AllocError>
    ensures { IfOk result (λ text. string_bytes text ≡ uri_text name.now) }
{
    let mut text = String::new(alloc);
    for byte in name {
        push_uri(&mut text, *byte)?;
    }
    Ok(text)
}

/// The section of the document on alarms that explains a class.
fn class_section(class: Class) -> &'static str
    ensures { result.now ≡ class_section class }
{
    match class {
        Class::Overflow => "overflow-signed-arithmetic-may-leave-the-range-of-its-type",
        Class::Div => "div-the-divisor-may-be-zero",
        Class::Shift =>
            "shift-the-shift-may-have-a-count-or-a-left-operand-for-which-it-is-not-defined",
        Class::Index => "index-the-subscript-may-lie-outside-the-array",
        Class::Pointer =>
            "pointer-pointer-arithmetic-may-leave-its-object-or-the-pointer-may-be-null-or-invalid",
        Class::Deref =>
            "deref-the-dereferenced-pointer-may-be-null-or-invalid-or-point-to-no-value-of-its-type",
        Class::Lock =>
            "lock-the-task-may-lock-a-mutex-that-it-holds-or-unlock-one-that-it-does-not-hold",
        Class::Race =>
            "race-another-task-may-access-this-object-at-the-same-time-and-one-of-the-two-stores",
    }
}

/// The section of the document on assumptions that explains a kind.
fn kind_section(kind: AssumptionKind) -> &'static str
    ensures { result.now ≡ kind_section kind }
{
    match kind {
        AssumptionKind::Const => "const",
        AssumptionKind::Enum => "enum",
        AssumptionKind::Implementation => "implementation",
        AssumptionKind::Layout => "layout",
        AssumptionKind::Lifetime => "lifetime",
        AssumptionKind::Member => "member",
        AssumptionKind::Order => "order",
        AssumptionKind::Pragma => "pragma-and-restrict",
        AssumptionKind::Reserved => "reserved",
        AssumptionKind::Restrict => "pragma-and-restrict",
        AssumptionKind::Unset => "unset",
    }
}

/// Where a rule is explained, behind the folder of the documents.
fn page_of(alloc: Global, rule: Rule) -> Result<String, AllocError>
    ensures { IfOk result (λ text. string_bytes text ≡ rule_page rule) }
{
    match rule {
        Rule::Alarm(class) => joined(alloc, "/ALARMS.md#", class_section(class)),
        Rule::Wait => String::from_str(alloc, "/ALARMS.md#wait-and-dead-in-a-log"),
        Rule::Dead => String::from_str(alloc, "/ALARMS.md#wait-and-dead-in-a-log"),
        Rule::Assumption(kind) => joined(alloc, "/ASSUMPTIONS.md#", kind_section(kind)),
    }
}

/// Where a rule is explained, in a folder of documents.
pub fn help_uri(alloc: Global, documents: &[u8], rule: Rule) -> Result<String, AllocError>
    ensures { IfOk result (λ text. string_bytes text ≡ help_uri documents.now rule) }
{
    let folder = uri(alloc, documents)?;
    let page = page_of(alloc, rule)?;
    let path = joined(alloc, folder.as_str(), page.as_str())?;
    joined(alloc, "file://", path.as_str())
}
