//! The words of types.
ghost use Rattle.std.specs.Prelude.{◌≡◌, [], ◌++◌, IfOk, OnOk, cond, length, get_or};
ghost use Rattle.tm_typed.specs.TypedFiles.{typed_file_tree};
ghost use Rattle.tm_laid.specs.TypeCells.{entry_of};
ghost use Rattle.source_names.specs.TypeWords.{qualifier_words, no_tag, tag_words, base_words};
ghost use Rattle.source_names.specs.TypeWords.{pointed, measured, one_read, all_read, nothing_read, type_words};
ghost use Rattle.source_names.specs.reading.Suffixes.{outside_of, is_base};

use notes_json::{push_number, type_text};
use std::alloc::Global;
use tm_laid::type_at;
use tm_lattice::NoMemory;
use tm_terms::{Name, push_bytes, text_of};
use tm_typed::{CType, Qualified, TypedFile};

// Appends a word, if it is to stand.
fn push_if(text: &mut Vec<u8>, stands: bool, word: &[u8]) -> Result<(), NoMemory>
    ensures { OnOk result (text.new.items ≡ text.old.items ++ cond stands word.now []) }
{
    if stands {
        return push_bytes(text, word);
    }
    Ok(())
}

// Appends what qualifies a type.
fn push_qualifiers(text: &mut Vec<u8>, of: Qualified) -> Result<(), NoMemory>
    ensures { OnOk result (text.new.items ≡ text.old.items ++ qualifier_words of) }
{
    push_if(text, of.constant, b"const ")?;
    push_if(text, of.volatile, b"volatile ")
}

// Appends a tag, if there is one.
fn push_tag(text: &mut Vec<u8>, bytes: &[u8], tag: Name) -> Result<(), NoMemory>
    ensures { OnOk result (text.new.items ≡ text.old.items ++ tag_words bytes.now tag) }
{
    if tag.length == 0 {
        return Ok(());
    }
    push_bytes(text, b" ")?;
    push_bytes(text, text_of(bytes, tag))
}

// The tag of a structure: a name of no bytes where it has none.
fn tag_of(tags: &[Name], structure: u32) -> Name
    ensures { result ≡ get_or tags.now structure no_tag }
{
    match tags.get(structure as usize) {
        Some(tag) => *tag,
        None => Name {
            start: 0,
            length: 0,
        },
    }
}

// Appends a type of which others are made.
fn push_base(text: &mut Vec<u8>, bytes: &[u8], tags: &[Name], of: CType) -> Result<(), NoMemory>
    ensures { OnOk result (text.new.items ≡ text.old.items ++ base_words bytes.now tags.now of) }
{
    match of {
        CType::Void => push_bytes(text, b"void"),
        CType::Int(of) => push_bytes(text, type_text(of)),
        CType::Struct(structure) => {
            push_bytes(text, b"struct")?;
            push_tag(text, bytes, tag_of(tags, structure))
        }
        CType::Pointer(_) | CType::Array { .. } => Ok(()),
    }
}

// What is read of a type from outside: the lengths of an array, what stands behind them, and what is left.
#[derive(Drop)]
struct Suffix {
    lengths: Vec<u8>,
    behind: Vec<u8>,
    left: Qualified,
}

// Reads a pointer: it stands before what is read so far.
fn read_pointer(alloc: Global, suffix: &mut Suffix, to: Qualified) -> Result<(), NoMemory>
    ensures { OnOk result (outside_of suffix.new ≡ pointed (outside_of suffix.old) to) }
{
    let mut behind = Vec::new(alloc);
    push_bytes(&mut behind, b" *")?;
    push_if(&mut behind, suffix.left.constant, b"const")?;
    push_bytes(&mut behind, &suffix.lengths)?;
    push_bytes(&mut behind, &suffix.behind)?;
    suffix.behind = behind;
    suffix.lengths = Vec::new(alloc);
    suffix.left = to;
    Ok(())
}

// Reads a length: it stands behind those that are read so far.
fn read_length(
    alloc: Global,
    suffix: &mut Suffix,
    element: u32,
    length: u32,
) -> Result<(), NoMemory>
    ensures { OnOk result (outside_of suffix.new ≡ measured (outside_of suffix.old) element length) }
{
    push_number(alloc, &mut suffix.lengths, b"[", length as u64)?;
    push_bytes(&mut suffix.lengths, b"]")?;
    suffix.left.number = element;
    Ok(())
}

// Reads a pointer or an array, if the type that is left is one.
fn read_one(alloc: Global, suffix: &mut Suffix, of: CType) -> Result<(), NoMemory>
    ensures { OnOk result (outside_of suffix.new ≡ one_read (outside_of suffix.old) of) }
{
    match of {
        CType::Pointer(to) => read_pointer(alloc, suffix, to),
        CType::Array { element, length } => read_length(alloc, suffix, element, length),
        CType::Void | CType::Int(_) | CType::Struct(_) => Ok(()),
    }
}

// Whether a type is one of which others are made.
fn is_base(of: CType) -> bool
    ensures { result ≡ is_base of }
{
    match of {
        CType::Pointer(_) | CType::Array { .. } => false,
        CType::Void | CType::Int(_) | CType::Struct(_) => true,
    }
}

// Reads what a type is made of, until one is left of which others are made.
fn read_suffix(alloc: Global, file: &TypedFile, of: Qualified) -> Result<Suffix, NoMemory>
    ensures { IfOk result (λ suffix. outside_of suffix
        ≡ all_read (typed_file_tree file.now) (length file.now.types.items) (nothing_read of)) }
{
    let mut suffix = Suffix {
        lengths: Vec::new(alloc),
        behind: Vec::new(alloc),
        left: of,
    };
    for _step in 0..file.types.len() {
        let here = type_at(file, suffix.left.number);
        if is_base(here) {
            return Ok(suffix);
        }
        read_one(alloc, &mut suffix, here)?;
    }
    Ok(suffix)
}

/// Appends a type in words of C: qualifiers, what it is made of, a star for each pointer, and the lengths of arrays.
pub fn push_type(
    alloc: Global,
    text: &mut Vec<u8>,
    bytes: &[u8],
    tags: &[Name],
    file: &TypedFile,
    of: Qualified,
) -> Result<(), NoMemory>
    ensures { OnOk result (text.new.items ≡ text.old.items
        ++ type_words bytes.now tags.now (typed_file_tree file.now) of) }
{
    let suffix = read_suffix(alloc, file, of)?;
    push_qualifiers(text, suffix.left)?;
    push_base(text, bytes, tags, type_at(file, suffix.left.number))?;
    push_bytes(text, &suffix.lengths)?;
    push_bytes(text, &suffix.behind)
}
