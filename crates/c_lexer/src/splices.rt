ghost use Rattle.std.specs.Prelude.{◌≡◌, ◌<◌, ◌≤◌, length, drop};
ghost use Rattle.tm_terms.specs.Splices.{Neither, backslash, begins_with, is_lone_return, is_other_line};
ghost use Rattle.tm_terms.specs.Splices.{is_spliced_slash, leaves_open, leaves_open_from, line_end, splice, unspliced};
ghost use Rattle.c_lexer.specs.reading.Quotes.{is_quote};

use crate::runs::{Run, run_length};
use tm_terms::{behind, byte_at, front};

// How many bytes the backslash takes that begins the text, written so or as a trigraph; 0 where none does.
fn backslash(text: &[u8]) -> usize
    ensures value { result ≡ backslash text.now }
    ensures within { result ≤ length text.now }
{
    if byte_at(text, 0) == b'\\' {
        1
    } else if front(text, 3) == b"??/".as_slice() {
        3
    } else {
        0
    }
}

// How many bytes the end of a line takes that begins the text, as compilers have it; 0 where none does.
fn line_end(text: &[u8]) -> usize
    ensures value { result ≡ line_end text.now }
    ensures within { result ≤ length text.now }
{
    let first = byte_at(text, 0);
    if first == b'\n' {
        1
    } else if first != b'\r' {
        0
    } else if byte_at(text, 1) == b'\n' {
        2
    } else {
        1
    }
}

// How many bytes the splice takes that begins the text; 0 where none does. The blanks are looked at behind a backslash
// alone, so a line of blanks is not read again from each of its bytes.
fn splice(text: &[u8]) -> usize
    ensures value { result ≡ splice text.now }
    ensures within { result ≤ length text.now }
{
    let slash = backslash(text);
    if slash == 0 {
        return 0;
    }
    let blanks = slash + run_length(behind(text, slash), Run::InnerBlanks);
    let end = line_end(behind(text, blanks));
    if end > 0 { blanks + end } else { 0 }
}

// What follows all splices that begin the text.
fn unspliced(text: &[u8]) -> &[u8]
    ensures { result.now ≡ unspliced 0 text.now }
{
    let mut at = 0;
    while at < text.len() {
        let length = splice(behind(text, at));
        if length == 0 {
            return behind(text, at);
        }
        at += length;
    }
    &[]
}

/// Whether splices, one at least, begin the text, and `/` stands behind them. Between them stands no `*`: so a text is
/// read twice where this is asked behind each of its stars.
pub fn is_spliced_slash(text: &[u8]) -> bool
    ensures { result ≡ is_spliced_slash text.now }
{
    splice(text) > 0 && byte_at(unspliced(text), 0) == b'/'
}

// Whether a compiler ends a line where the text begins, and the lexis does not.
fn is_lone_return(text: &[u8]) -> bool
    ensures { result ≡ is_lone_return text.now }
{
    line_end(text) == 1 && byte_at(text, 0) == b'\r'
}

/// Whether the first line of the text goes on or ends elsewhere for a compiler.
pub fn is_other_line(text: &[u8]) -> bool
    ensures { result ≡ is_other_line text.now }
{
    for i in 0..text.len() {
        if text[i] == b'\n' {
            return false;
        }
        let rest = behind(text, i);
        if splice(rest) > 0 || is_lone_return(rest) {
            return true;
        }
    }
    false
}

/// Where a byte of a skipped line stands.
#[derive(Clone, Copy)]
pub enum Within {
    /// In no literal and no comment.
    Neither,
    /// In a character constant or a string literal that ends at this byte.
    Quoted(u8),
    /// In a comment from `/*` on.
    Comment,
}

fn begins_with(first: u8, second: u8, text: &[u8]) -> bool
    ensures { result ≡ begins_with first second text.now }
{
    byte_at(text, 0) == first && byte_at(text, 1) == second
}

// Whether this byte begins a literal: `'` does where it is paired.
fn is_quote(paired: bool, byte: u8) -> bool
    ensures { result ≡ is_quote paired byte }
{
    byte == b'"' || (paired && byte == b'\'')
}

impl Within {
    ghost use Rattle.c_lexer.specs.reading.OpenComments.{leaves_open_behind, within_of};

    // Where what follows the first byte of the text stands, behind so many bytes more; nothing where the rest of the
    // line is a comment from `//` on.
    fn behind_first(self, paired: bool, text: &[u8]) -> Option<(Within, usize)>
        requires { 0 < length text.now }
        ensures { leaves_open_from paired 0 (within_of self) text.now
            ≡ leaves_open_behind paired result (drop 1 text.now) }
    {
        let first = text[0];
        match self {
            Within::Neither => {
                if begins_with(b'/', b'/', text) {
                    return None;
                }
                if begins_with(b'/', b'*', text) {
                    return Some((Within::Comment, 1));
                }
                if is_quote(paired, first) {
                    return Some((Within::Quoted(first), 0));
                }
            }
            Within::Quoted(quote) => {
                let more = backslash(text);
                return if first == quote {
                    Some((Within::Neither, more))
                } else {
                    Some((self, more))
                };
            }
            Within::Comment => {
                if begins_with(b'*', b'/', text) {
                    return Some((Within::Neither, 1));
                }
            }
        }
        Some((self, 0))
    }
}

// Whether a comment begins on the line that does not end on it, where `paired` says whether `'` begins a character
// constant.
fn leaves_open_where(paired: bool, line: &[u8]) -> bool
    ensures { result ≡ leaves_open_from paired 0 Neither line.now }
{
    let mut within = Within::Neither;
    let mut more = 0;
    for i in 0..line.len() {
        if more > 0 {
            more -= 1;
            continue;
        }
        let Some((next, length)) = within.behind_first(paired, behind(line, i)) else {
            return false;
        };
        within = next;
        more = length;
    }
    matches!(within, Within::Comment)
}

/// Whether a comment begins on the line that does not end on it, be `'` the begin of a character constant or not.
pub fn leaves_open(line: &[u8]) -> bool
    ensures { result ≡ leaves_open line.now }
{
    leaves_open_where(false, line) || leaves_open_where(true, line)
}
