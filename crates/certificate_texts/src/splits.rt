//! Where the source stands in the text of a certificate.
ghost use Rattle.std.specs.Prelude.{◌≡◌, ◌≢◌, ◌+◌, ◌<◌, ◌≤◌, ◌^◌, ◌++◌, ◌∷◌, ℕ, List, length, slice_index, decimal};
ghost use Rattle.std.specs.Prelude.{MatchOption};
ghost use Rattle.certificate_texts.specs.Certificates.{IsSplit};
ghost use Rattle.certificate_texts.specs.reading.Counts.{IsCounted, HasNoCount, front};

use certificate_words::natural;

// What stands before the number of bytes of the source.
const FRONT: &[u8] = b"tmcert 1\nsource ";

// The number of a source's bytes, and how many digits it has.
#[derive(Clone, Copy)]
pub(crate) struct Count {
    pub(crate) count: u64,
    pub(crate) digits: usize,
}

// How many bytes stand before the first byte 10.
fn line_length(bytes: &[u8]) -> usize
    ensures within { result ≤ length bytes.now }
    ensures before { (k : ℕ) → k < result → slice_index bytes.now k ≢ 10 }
    ensures found { result < length bytes.now → slice_index bytes.now result ≡ 10 }
{
    for (at, byte) in bytes.iter().enumerate() {
        if *byte == b'\n' {
            return at;
        }
    }
    bytes.len()
}

// The bytes behind the front of a certificate: None exactly where it does not stand there.
fn behind_front(bytes: &[u8]) -> Option<&[u8]>
    ensures { MatchOption result ((rest : List ℕ) → bytes.now ≢ front ++ rest) (λ told. bytes.now ≡ front ++ told.now) }
{
    bytes.strip_prefix(FRONT)
}

// The number that a line tells in front: None exactly where no number below 2^64 with byte 10 behind it stands there.
fn count_in(told: &[u8]) -> Option<Count>
    ensures { MatchOption result (HasNoCount told.now) (λ found. IsCounted told.now found.count found.digits) }
{
    let digits = line_length(told);
    if digits == told.len() {
        return None;
    }
    match natural(&told[..digits]) {
        None => None,
        Some(count) => Some(Count { count, digits }),
    }
}

/// Where the source of a certificate stands: from the first place to before the second, at which byte 10 stands. None
/// exactly where bytes do not begin with the first two lines of a certificate, so many bytes and byte 10. It takes no
/// memory.
pub fn split(bytes: &[u8]) -> Option<(usize, usize)>
    ensures { MatchOption result ((start end : ℕ) → IsSplit bytes.now start end → ⊥)
        (λ ends. IsSplit bytes.now ends.0 ends.1) }
{
    let whole = bytes.len();
    let Some(told) = behind_front(bytes) else {
        return None;
    };
    let Some(found) = count_in(told) else {
        return None;
    };
    let source = &told[found.digits + 1..];
    if found.count >= source.len() as u64 {
        return None;
    }
    let length = found.count as usize;
    if source[length] != b'\n' {
        return None;
    }
    let start = whole - source.len();
    Some((start, start + length))
}
