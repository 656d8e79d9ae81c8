//! Where the source of a replay ends.
ghost use Rattle.std.specs.Prelude.{◌≡◌, ◌≤◌, ◌&&◌, length, option_map};
ghost use Rattle.std.specs.List.{after_first, before_first, position_or_len};
ghost use Rattle.replay_lines.specs.Cuts.{begins_mark, cut, is_newline, source_of};
ghost use Rattle.replay_lines.specs.reading.Cuts.{cut_at};

use tm_terms::{behind, front};

/// The line behind which the choices stand.
const MARK: &[u8] = b"#replay";

/// How many bytes the first line has.
fn line_length(bytes: &[u8]) -> usize
    ensures length { result ≡ position_or_len is_newline bytes.now }
    ensures within { result ≤ length bytes.now }
{
    for (at, byte) in bytes.iter().enumerate() {
        if *byte == b'\n' {
            return at;
        }
    }
    bytes.len()
}

/// The first line.
pub(crate) fn first_line(bytes: &[u8]) -> &[u8]
    ensures { result.now ≡ before_first is_newline bytes.now }
{
    front(bytes, line_length(bytes))
}

/// What stands behind the first line.
pub(crate) fn other_lines(bytes: &[u8]) -> &[u8]
    ensures { result.now ≡ after_first is_newline bytes.now }
{
    let length = line_length(bytes);
    behind(bytes, length + 1)
}

/// Whether a line begins with these bytes, and is the one behind which the choices stand.
fn is_mark(fresh: bool, bytes: &[u8]) -> bool
    ensures { result ≡ (fresh && begins_mark bytes.now) }
{
    fresh && first_line(bytes) == MARK
}

/// Where the first line begins behind which the choices stand.
pub(crate) fn mark_in(bytes: &[u8]) -> Option<usize>
    ensures { cut bytes.now ≡ option_map (cut_at bytes.now) result }
{
    let mut fresh = true;
    for (at, byte) in bytes.iter().enumerate() {
        if is_mark(fresh, behind(bytes, at)) {
            return Some(at);
        }
        fresh = *byte == b'\n';
    }
    None
}

/// The source: what stands before the first line that is `#replay`, or all bytes where no line is.
pub fn source_in(bytes: &[u8]) -> &[u8]
    ensures { result.now ≡ source_of bytes.now }
{
    match mark_in(bytes) {
        Some(at) => front(bytes, at),
        None => bytes,
    }
}
