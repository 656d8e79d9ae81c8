//! The classes of words that are lists.

ghost use Rattle.std.specs.Prelude.{◌≡◌, ℕ, List, bytes_eq, find, is_some, map, option_map};
ghost use Rattle.refusal_hints.specs.Classes.{class_of, is_among, is_keyword};

/// The keywords of C99, and the analyser's own words.
static KEYWORDS: [&[u8]; 44] = [
    b"auto",
    b"break",
    b"case",
    b"char",
    b"const",
    b"continue",
    b"default",
    b"do",
    b"double",
    b"else",
    b"enum",
    b"extern",
    b"float",
    b"for",
    b"goto",
    b"if",
    b"inline",
    b"int",
    b"long",
    b"register",
    b"restrict",
    b"return",
    b"short",
    b"signed",
    b"sizeof",
    b"static",
    b"struct",
    b"switch",
    b"typedef",
    b"union",
    b"unsigned",
    b"void",
    b"volatile",
    b"while",
    b"_Bool",
    b"_Complex",
    b"_Imaginary",
    b"__task",
    b"__mutex",
    b"__lock",
    b"__unlock",
    b"__yield",
    b"__input",
    b"__islocked",
];

/// The classes, each with its words.
static CLASSES: [(&[u8], &[&[u8]]); 16] = [
    (
        b"@type",
        &[
            b"void",
            b"char",
            b"short",
            b"int",
            b"long",
            b"signed",
            b"unsigned",
            b"_Bool",
        ],
    ),
    (
        b"@specifier",
        &[
            b"void",
            b"char",
            b"short",
            b"int",
            b"long",
            b"signed",
            b"unsigned",
            b"_Bool",
            b"static",
            b"extern",
            b"register",
            b"auto",
            b"typedef",
            b"const",
            b"volatile",
            b"inline",
            b"struct",
            b"enum",
        ],
    ),
    (
        b"@storage",
        &[
            b"static",
            b"extern",
            b"register",
            b"auto",
            b"typedef",
            b"const",
            b"volatile",
            b"inline",
        ],
    ),
    (
        b"@qualifier",
        &[b"static", b"const", b"restrict", b"volatile"],
    ),
    (
        b"@volatile",
        &[
            b"volatile",
            b"__volatile__",
            b"__volatile",
            b"goto",
            b"inline",
        ],
    ),
    (b"@ended", &[b";", b"{", b"}", b":", b")", b"else", b"do"]),
    (b"@floating", &[b"float", b"double"]),
    (b"@complex", &[b"_Complex", b"_Imaginary"]),
    (b"@asm", &[b"asm", b"__asm", b"__asm__"]),
    (b"@assertion", &[b"_Static_assert", b"static_assert"]),
    (
        b"@attribute",
        &[b"__attribute__", b"__attribute", b"__declspec"],
    ),
    (
        b"@extension",
        &[
            b"__extension__",
            b"_Thread_local",
            b"__thread",
            b"typeof",
            b"__typeof",
            b"__typeof__",
            b"_Alignof",
            b"__alignof",
            b"__alignof__",
            b"_Alignas",
            b"_Atomic",
            b"_Noreturn",
            b"_Generic",
            b"__inline",
            b"__inline__",
            b"__restrict",
            b"__restrict__",
            b"__volatile",
            b"__volatile__",
            b"__const",
            b"__const__",
            b"__signed",
            b"__signed__",
            b"__int128",
            b"__auto_type",
            b"__label__",
            b"__real__",
            b"__imag__",
            b"asm",
            b"__asm",
            b"__asm__",
            b"__interrupt",
            b"__irq",
            b"_Float16",
            b"__fp16",
        ],
    ),
    (b"@wide", &[b"L", b"u", b"U"]),
    (
        b"@starter",
        &[
            b"=", b"return", b";", b"{", b"+", b"-", b"/", b"%", b"!", b"~", b"?", b":", b"<",
            b">", b"|", b"^", b"&",
        ],
    ),
    (
        b"@member",
        &[
            b"{",
            b";",
            b"}",
            b"const",
            b"volatile",
            b"void",
            b"char",
            b"short",
            b"int",
            b"long",
            b"signed",
            b"unsigned",
        ],
    ),
    (
        b"@frame",
        &[
            b";",
            b"{",
            b"(",
            b",",
            b"const",
            b"static",
            b"volatile",
            b"signed",
            b"unsigned",
        ],
    ),
];

/// Whether a word is one of these.
fn is_among(words: &[&[u8]], word: &[u8]) -> bool
    ensures { result ≡ is_among (map (λ w. w.now) words.now) word.now }
{
    for other in words {
        if *other == word {
            return true;
        }
    }
    false
}

/// Whether a word is a keyword.
#[tactic(auto, unfolding(crate::specs::Classes::keywords))]
pub fn is_keyword(word: &[u8]) -> bool
    ensures { result ≡ is_keyword word.now }
{
    is_among(&KEYWORDS, word)
}

/// The words that a table has for a class.
fn words_in<'a>(table: &[(&'a [u8], &'a [&'a [u8]])], class: &[u8]) -> Option<&'a [&'a [u8]]>
    ensures { option_map (λ words. map (λ w. w.now) words.now) result
        ≡ option_map (λ (e : List ℕ × List (List ℕ)). e.1) (find (λ e. bytes_eq e.0 class.now)
        (map (λ e. (e.0.now, map (λ w. w.now) e.1.now)) table.now)) }
{
    for (name, words) in table {
        if *name == class {
            return Some(*words);
        }
    }
    None
}

/// Whether a word is in a class that is a list; none where there is no such class.
#[tactic(auto, unfolding(crate::specs::Classes::classes))]
pub fn is_listed(class: &[u8], word: &[u8]) -> Option<bool>
    ensures { result ≡ option_map (λ words. is_among words word.now) (class_of class.now) }
{
    let words = words_in(&CLASSES, class)?;
    Some(is_among(words, word))
}
