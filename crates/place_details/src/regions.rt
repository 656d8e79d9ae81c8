//! Where a place begins and ends in its line of the file.

ghost use Rattle.std.specs.Prelude.{◌≡◌, ◌<◌, ◌≤◌, ◌+◌, ◌^◌, length, map, IfOk};
ghost use Rattle.place_details.specs.Regions.{begin_alike, column_behind, evened, is_doubled, is_pair};
ghost use Rattle.place_details.specs.Regions.{region_at, region_behind, sign_length, takes_equals, token_length};
ghost use Rattle.place_details.specs.Regions.{units_in};

use source_marks::is_blank;
use std::alloc::{AllocError, Global};
use tm_terms::{behind, byte_at, front, is_name_byte, name_length};

/// What is known of where a place stands in its line of the file: the line alone, the column at which it begins, or that
/// one and the column behind its token.
#[derive(Clone, Copy)]
pub enum Region {
    Whole,
    From(usize),
    Within(usize, usize),
}

/// How many units of UTF-16 a byte stands for.
fn units_in(byte: u8) -> usize
    ensures value { result ≡ units_in byte }
    ensures few { result ≤ 2 }
{
    if byte < 128 {
        1
    } else if byte < 192 {
        0
    } else if byte < 240 {
        1
    } else {
        2
    }
}

/// The column behind so many bytes of a line.
fn column_behind(count: usize, line: &[u8]) -> usize
    ensures { result ≡ column_behind count line.now }
{
    let mut units: usize = 0;
    let part = front(line, count);
    for byte in part {
        units += units_in(*byte);
    }
    units + 1
}

/// Whether a byte stands twice in a sign.
fn is_doubled(byte: u8) -> bool
    ensures { result ≡ is_doubled byte }
{
    byte == b'+' || byte == b'-' || byte == b'&' || byte == b'|' || byte == b'<' || byte == b'>'
}

/// Whether `=` stands behind a byte in a sign.
fn takes_equals(byte: u8) -> bool
    ensures { result ≡ takes_equals byte }
{
    is_doubled(byte)
        || byte == b'*'
        || byte == b'/'
        || byte == b'%'
        || byte == b'^'
        || byte == b'='
        || byte == b'!'
}

/// Whether two bytes are a sign.
fn is_pair(byte: u8, next: u8) -> bool
    ensures { result ≡ is_pair byte next }
{
    (next == b'=' && takes_equals(byte))
        || (byte == next && is_doubled(byte))
        || (byte == b'-' && next == b'>')
}

/// How many bytes the sign has that begins a text.
fn sign_length(text: &[u8]) -> usize
    ensures value { result ≡ sign_length text.now }
    ensures few { result ≤ 3 }
{
    if text.starts_with(b"<<=") || text.starts_with(b">>=") {
        3
    } else if is_pair(byte_at(text, 0), byte_at(text, 1)) {
        2
    } else {
        1
    }
}

/// How many bytes the token has that begins a text.
fn token_length(text: &[u8]) -> usize
    ensures value { result ≡ token_length text.now }
    ensures within { result ≤ length text.now + 3 }
{
    let first = byte_at(text, 0);
    if first <= b' ' {
        0
    } else if is_name_byte(first) {
        name_length(text)
    } else {
        sign_length(text)
    }
}

/// A byte of a line as the preprocessor may write it.
fn evened(byte: u8) -> u8
    ensures { result ≡ evened byte }
{
    if is_blank(byte) { b' ' } else { byte }
}

/// A part of a line as the preprocessor may write it.
fn evened_part(alloc: Global, part: &[u8]) -> Result<Vec<u8>, AllocError>
    ensures { IfOk result (λ text. text.items ≡ map evened part.now) }
{
    let mut text = Vec::with_capacity(alloc, part.len())?;
    for byte in part {
        text.push(evened(*byte))?;
    }
    Ok(text)
}

/// Whether two lines have the same first bytes, so many, but for blanks.
fn begin_alike(alloc: Global, count: usize, line: &[u8], other: &[u8]) -> Result<bool, AllocError>
    ensures { IfOk result (λ alike. alike ≡ begin_alike count line.now other.now) }
{
    let one = evened_part(alloc, front(line, count))?;
    let two = evened_part(alloc, front(other, count))?;
    Ok(one.as_slice() == two.as_slice())
}

/// The region of a token of so many bytes behind so many others.
fn region_behind(
    alloc: Global,
    line: &[u8],
    text_line: &[u8],
    before: usize,
    token: usize,
) -> Result<Region, AllocError>
    requires { before + token < 2 ^ 64 }
    ensures { IfOk result (λ region. region ≡ region_behind line.now text_line.now before token) }
{
    let end = before + token;
    if token == 0 {
        return Ok(Region::Whole);
    }
    if begin_alike(alloc, end, line, text_line)? {
        Ok(Region::Within(column_behind(before, line), column_behind(end, line)))
    } else {
        Ok(Region::Whole)
    }
}

/// The region at a column of a line.
pub fn region_at(
    alloc: Global,
    line: &[u8],
    text_line: &[u8],
    col: u32,
) -> Result<Region, AllocError>
    ensures { IfOk result (λ region. region ≡ region_at line.now text_line.now col) }
{
    let col = col as usize;
    if text_line.len() < col {
        return Ok(Region::Whole);
    }
    let before = col.saturating_sub(1);
    if line.is_empty() {
        return Ok(Region::From(column_behind(before, text_line)));
    }
    let token = token_length(behind(text_line, before));
    region_behind(alloc, line, text_line, before, token)
}
