//! Runs of bytes at the front of a text.

ghost use Rattle.std.specs.Prelude.{◌≡◌, ◌<◌, ◌≤◌, true, length, slice_index};
ghost use Rattle.std.specs.List.{prefix_len};
ghost use Rattle.refusal_hints.specs.Words.{is_word_byte};

use tm_terms::is_name_byte;

/// Whether a byte is a letter, a digit, `_` or `@`.
pub fn is_word_byte(byte: u8) -> bool
    ensures { result ≡ is_word_byte byte }
{
    is_name_byte(byte) || byte == b'@'
}

/// How many letters, digits, `_` and `@` a text begins with.
pub fn word_length(text: &[u8]) -> usize
    ensures value { result ≡ prefix_len is_word_byte text.now }
    ensures within { result ≤ length text.now }
    ensures some { 0 < length text.now → is_word_byte (slice_index text.now 0) ≡ true → 0 < result }
{
    for (i, byte) in text.iter().enumerate() {
        if !is_word_byte(*byte) {
            return i;
        }
    }
    text.len()
}
