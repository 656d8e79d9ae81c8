//! Fingerprints.

ghost use Rattle.std.specs.Prelude.{◌≡◌, ◌++◌, ◌∷◌, [], ℕ, List, bytes_eq, count_by, filter, map, unwrap_or};
ghost use Rattle.std.specs.Prelude.{IfOk, OnOk, decimal, option_map, string_bytes};
ghost use Rattle.std.specs.HashMap.{get_by};
ghost use Rattle.place_details.specs.Fingerprints.{fingerprint, fingerprints_of, front_of, is_solid, part};
ghost use Rattle.place_details.specs.Fingerprints.{relative, solid_part, within};
ghost use Rattle.place_details.specs.reading.Seen.{front_seen};

use sha2::{Digest, Sha256};
use std::alloc::{AllocError, Global};
use std::collections::HashMap;
use tm_terms::{behind, front};

/// How many bytes of a line count.
const LONGEST_PART: usize = 1024;

/// What stands behind a folder and a slash in a name, if it begins with them.
fn within<'a>(folder: &[u8], name: &'a [u8]) -> Option<&'a [u8]>
    ensures { option_map (λ rest. rest.now) result ≡ within folder.now name.now }
{
    if front(name, folder.len()) != folder {
        return None;
    }
    let rest = behind(name, folder.len());
    if rest.starts_with(b"/") {
        Some(behind(rest, 1))
    } else {
        None
    }
}

/// A name of a file as seen from a folder.
pub fn relative<'a>(folder: &[u8], name: &'a [u8]) -> &'a [u8]
    ensures { result.now ≡ relative folder.now name.now }
{
    if let Some(rest) = within(folder, name) {
        rest
    } else if name.starts_with(b"./") {
        behind(name, 2)
    } else {
        name
    }
}

/// Whether a byte of a line counts.
fn is_solid(byte: u8) -> bool
    ensures { result ≡ is_solid byte }
{
    !(byte == b' ' || byte == b'\t' || byte == b'\r')
}

/// Appends a part, and the byte 0 behind it.
fn push_part(to: &mut Vec<u8>, text: &[u8]) -> Result<(), AllocError>
    ensures { OnOk result (to.new.items ≡ to.old.items ++ part text.now) }
{
    to.extend_from_slice(text)?;
    to.push(0)?;
    Ok(())
}

/// Appends what counts of a line.
fn push_solid(to: &mut Vec<u8>, line: &[u8]) -> Result<(), AllocError>
    ensures { OnOk result (to.new.items ≡ to.old.items ++ solid_part line.now) }
{
    let part = front(line, LONGEST_PART);
    for byte in part {
        if is_solid(*byte) {
            to.push(*byte)?;
        }
    }
    Ok(())
}

/// What stays the same of a place when other lines move.
pub fn front_of(
    alloc: Global,
    word: &str,
    file: &[u8],
    function: &[u8],
    line: &[u8],
) -> Result<Vec<u8>, AllocError>
    ensures { IfOk result (λ front. front.items ≡ front_of word.now file.now function.now line.now) }
{
    let mut front = Vec::new(alloc);
    push_part(&mut front, word.as_bytes())?;
    push_part(&mut front, file)?;
    push_part(&mut front, function)?;
    push_solid(&mut front, line)?;
    front.push(0)?;
    Ok(front)
}

/// A number in decimal.
fn number_text(alloc: Global, number: usize) -> Result<String, AllocError>
    ensures { IfOk result (λ text. string_bytes text ≡ decimal number) }
{
    format!(in alloc; "{number}")
}

/// The fingerprint of a front, of which so many equal ones stand before.
fn fingerprint(alloc: Global, front: &[u8], number: usize) -> Result<String, AllocError>
    ensures { IfOk result (λ text. string_bytes text ≡ fingerprint front.now number) }
{
    let text = number_text(alloc, number)?;
    let mut hasher = Sha256::new();
    hasher.update(front);
    hasher.update(text.as_bytes());
    let digest = hasher.finalize();
    hex::encode(alloc, &digest[..16])
}

/// The fingerprints of fronts.
pub fn fingerprints_of(alloc: Global, fronts: &[Vec<u8>]) -> Result<Vec<String>, AllocError>
    ensures { IfOk result (λ texts. map string_bytes texts.items ≡ fingerprints_of (map front_seen fronts.now)) }
{
    let mut texts = Vec::with_capacity(alloc, fronts.len())?;
    let mut counts: HashMap<&[u8], usize> = HashMap::new(alloc);
    for front in fronts {
        let front = front.as_slice();
        let count = counts.get(front).copied().unwrap_or(0);
        texts.push(fingerprint(alloc, front, count)?)?;
        counts.insert(front, count + 1)?;
    }
    Ok(texts)
}
