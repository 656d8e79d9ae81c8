//! In which function of a text a place stands.

ghost use Rattle.std.specs.Prelude.{◌≡◌, ◌<◌, ◌≤◌, ◌+◌, ◌^◌, length};
ghost use Rattle.place_details.specs.Functions.{body_behind, bytes_in, called_behind, is_outside};
ghost use Rattle.place_details.specs.Functions.{nothing, one_more, open_behind, scanned, step, word_behind};

use tm_terms::{behind, front, is_name_byte};

/// From one byte of a text to before another.
#[derive(Clone, Copy)]
pub struct Span {
    pub start: usize,
    pub end: usize,
}

/// What stands before a place of code: how many braces and other brackets are open, the last byte that is no blank, the
/// last word outside all brackets, the word right before the last `(` there, and the name of the function whose body is
/// open.
#[derive(Clone, Copy)]
pub struct Scan {
    pub braces: usize,
    pub parens: usize,
    pub last: u8,
    pub word: Span,
    pub called: Span,
    pub body: Span,
}

/// No bytes.
const NOWHERE: Span = Span { start: 0, end: 0 };

/// The number of open brackets that is never left.
const MOST_OPEN: usize = 1_000_000_000;

/// One open bracket more.
fn one_more(number: usize) -> usize
    ensures { result ≡ one_more number }
{
    if number < MOST_OPEN {
        number + 1
    } else {
        number
    }
}

/// How many brackets are open behind a byte.
fn open_behind(opening: u8, closing: u8, number: usize, byte: u8) -> usize
    ensures { result ≡ open_behind opening closing number byte }
{
    if byte == opening {
        one_more(number)
    } else if byte == closing {
        number.saturating_sub(1)
    } else {
        number
    }
}

/// Whether a byte stands outside all brackets.
fn is_outside(scan: Scan) -> bool
    ensures { result ≡ is_outside scan }
{
    scan.braces == 0 && scan.parens == 0
}

/// The last word outside all brackets, behind a byte.
fn word_behind(scan: Scan, at: usize, byte: u8) -> Span
    requires { at + 1 < 2 ^ 64 }
    ensures { result ≡ word_behind scan at byte }
{
    if is_outside(scan) && is_name_byte(byte) {
        let start = if scan.word.end == at {
            scan.word.start
        } else {
            at
        };
        Span { start, end: at + 1 }
    } else {
        scan.word
    }
}

/// The word right before the last `(` outside all brackets, behind a byte.
fn called_behind(scan: Scan, byte: u8) -> Span
    ensures { result ≡ called_behind scan byte }
{
    if is_outside(scan) && byte == b'(' {
        if is_name_byte(scan.last) {
            scan.word
        } else {
            NOWHERE
        }
    } else {
        scan.called
    }
}

/// The name of the function whose body is open behind a byte.
fn body_behind(scan: Scan, byte: u8) -> Span
    ensures { result ≡ body_behind scan byte }
{
    if byte == b'{' && scan.braces == 0 {
        if scan.last == b')' {
            scan.called
        } else {
            NOWHERE
        }
    } else if byte == b'}' && scan.braces == 1 {
        NOWHERE
    } else {
        scan.body
    }
}

/// What stands before the place behind a byte.
fn step(scan: Scan, at: usize, byte: u8) -> Scan
    requires { at + 1 < 2 ^ 64 }
    ensures { result ≡ step scan at byte }
{
    if byte <= b' ' {
        return scan;
    }
    Scan {
        braces: open_behind(b'{', b'}', scan.braces, byte),
        parens: open_behind(b'(', b')', scan.parens, byte),
        last: byte,
        word: word_behind(scan, at, byte),
        called: called_behind(scan, byte),
        body: body_behind(scan, byte),
    }
}

/// What stands before a place of code: at the front nothing does.
pub fn nothing() -> Scan
    ensures { result ≡ nothing }
{
    Scan {
        braces: 0,
        parens: 0,
        last: 0,
        word: NOWHERE,
        called: NOWHERE,
        body: NOWHERE,
    }
}

/// What stands before a place, by what stands before an earlier one.
pub fn scan_on(code: &[u8], scan: Scan, at: usize, to: usize) -> Scan
    requires before { scan ≡ scanned code.now at }
    requires order { at ≤ to }
    requires within { to ≤ length code.now }
    ensures { result ≡ scanned code.now to }
{
    let mut scan = scan;
    for i in at..to {
        scan = step(scan, i, code[i]);
    }
    scan
}

/// The bytes of a text from one to before another.
pub fn bytes_in(text: &[u8], span: Span) -> &[u8]
    ensures { result.now ≡ bytes_in text.now span }
{
    front(
        behind(text, span.start),
        span.end.saturating_sub(span.start),
    )
}
