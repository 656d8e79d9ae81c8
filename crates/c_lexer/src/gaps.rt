ghost use Rattle.std.specs.Prelude.{◌≡◌, ◌+◌, ◌<◌, ◌≤◌, length, slice_index, IfSome, None};
ghost use Rattle.std.specs.List.{list_all};
ghost use Rattle.std.specs.Char.{is_ascii_digit};
ghost use Rattle.tm_terms.specs.Lexis.{comment, comment_end, is_skipped_word, line_comment, skipped_line};

use crate::runs::{Run, run_length};
use crate::splices::{is_other_line, is_spliced_slash, leaves_open};
use tm_terms::{Piece, behind, byte_at, front};

// A gap of so many bytes.
fn gap(length: usize) -> Piece
    ensures { result ≡ record { shape = None; length = length } }
{
    Piece {
        shape: None,
        length,
    }
}

// Where the first `*/` of a text ends, with its bytes counted from `start`; nothing where joined lines would end the
// comment before.
fn comment_end(text: &[u8], start: usize) -> Option<usize>
    requires { start ≤ 2 }
    ensures value { result ≡ comment_end start text.now }
    ensures within { IfSome result (λ end. (start + 2 ≤ end) × (end ≤ start + length text.now)) }
{
    for i in 0..text.len() {
        if text[i] == b'*' && byte_at(text, i + 1) == b'/' {
            return Some(start + i + 2);
        }
        if text[i] == b'*' && is_spliced_slash(behind(text, i + 1)) {
            return None;
        }
    }
    None
}

/// The comment of the form `/* .. */` that begins the text, if it ends, and ends where it did if lines were joined.
#[tactic(auto, unfolding(tm_terms::specs::Lexis::comment))]
pub fn comment(text: &[u8]) -> Option<Piece>
    ensures value { result ≡ comment text.now }
    ensures within { IfSome result (λ p. (0 < p.length) × (p.length ≤ length text.now)) }
{
    if text.len() < 2 {
        return None;
    }
    let end = comment_end(&text[2..], 2)?;
    Some(gap(end))
}

/// The comment that `//` begins, if it ends for a compiler where this line does.
pub fn line_comment(text: &[u8]) -> Option<Piece>
    ensures value { result ≡ line_comment text.now }
    ensures within { IfSome result (λ p. p.length ≤ length text.now) }
    ensures some { slice_index text.now 0 ≡ 47 → IfSome result (λ p. 0 < p.length) }
{
    if is_other_line(text) {
        return None;
    }
    Some(gap(run_length(text, Run::Line)))
}

fn are_digits(word: &[u8]) -> bool
    ensures { result ≡ list_all is_ascii_digit word.now }
{
    word.iter().all(|byte| byte.is_ascii_digit())
}

fn is_skipped_word(word: &[u8]) -> bool
    ensures { result ≡ is_skipped_word word.now }
{
    word == b"line".as_slice()
        || word == b"pragma".as_slice()
        || (!word.is_empty() && are_digits(word))
}

/// The line that `#` begins, if it is skipped, and for a compiler ends where this line does.
#[tactic(auto, unfolding(tm_terms::specs::Lexis::skipped_line))]
pub fn skipped_line(text: &[u8]) -> Option<Piece>
    ensures value { result ≡ skipped_line text.now }
    ensures within { IfSome result (λ p. p.length ≤ length text.now) }
    ensures some { slice_index text.now 0 ≡ 35 → IfSome result (λ p. 0 < p.length) }
{
    let rest = behind(text, 1);
    let rest = behind(rest, run_length(rest, Run::Blanks));
    let word = front(rest, run_length(rest, Run::Name));
    if !is_skipped_word(word) {
        return None;
    }
    let length = run_length(text, Run::Line);
    if is_other_line(text) || leaves_open(front(text, length)) {
        return None;
    }
    Some(gap(length))
}
