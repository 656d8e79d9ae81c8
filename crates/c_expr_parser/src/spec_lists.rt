//! Lists of specifiers (C99 6.7, 6.7.2).
ghost use Rattle.std.specs.Prelude.{◌≡◌, ◌<◌, ◌≤◌, ◌^◌, length, count_by};
ghost use Rattle.tm_terms.specs.ExprSpelling.{is_type_spec, is_basic, is_lone, is_storage, is_typedef_word};
ghost use Rattle.tm_terms.specs.ExprSpelling.{is_declared_type, many, is_integer_list, is_type_list, is_type_name_list};

use tm_terms::{Basic, Spec, SpecWord, Storage};

/// Whether the specifier says what type is meant.
pub fn is_type_spec(word: SpecWord) -> bool
    ensures { result ≡ is_type_spec word }
{
    match word {
        SpecWord::Storage(_) | SpecWord::Qualifier(_) => false,
        SpecWord::Basic(_) | SpecWord::Tagged { .. } | SpecWord::Alias(_) => true,
    }
}

fn is_basic(basic: Basic, word: SpecWord) -> bool
    ensures { result ≡ is_basic basic word }
{
    match (basic, word) {
        (Basic::Void, SpecWord::Basic(Basic::Void)) => true,
        (Basic::Bool, SpecWord::Basic(Basic::Bool)) => true,
        (Basic::Char, SpecWord::Basic(Basic::Char)) => true,
        (Basic::Short, SpecWord::Basic(Basic::Short)) => true,
        (Basic::Int, SpecWord::Basic(Basic::Int)) => true,
        (Basic::Long, SpecWord::Basic(Basic::Long)) => true,
        (Basic::Signed, SpecWord::Basic(Basic::Signed)) => true,
        (Basic::Unsigned, SpecWord::Basic(Basic::Unsigned)) => true,
        _ => false,
    }
}

fn is_lone(word: SpecWord) -> bool
    ensures { result ≡ is_lone word }
{
    matches!(word, SpecWord::Basic(Basic::Void | Basic::Bool))
}

fn is_storage(word: SpecWord) -> bool
    ensures { result ≡ is_storage word }
{
    matches!(word, SpecWord::Storage(_))
}

fn is_typedef_word(word: SpecWord) -> bool
    ensures { result ≡ is_typedef_word word }
{
    matches!(word, SpecWord::Storage(Storage::Typedef))
}

fn is_declared_type(word: SpecWord) -> bool
    ensures { result ≡ is_declared_type word }
{
    matches!(word, SpecWord::Tagged { .. } | SpecWord::Alias(_))
}

// How often the type word stands in the list.
fn count(basic: Basic, specs: &[Spec]) -> usize
    ensures value { result ≡ many (is_basic basic) specs.now }
    ensures few { result ≤ length specs.now }
{
    specs.iter().filter(|s| is_basic(basic, s.word)).count()
}

fn count_lone(specs: &[Spec]) -> usize
    ensures { result ≡ many is_lone specs.now }
{
    specs.iter().filter(|s| is_lone(s.word)).count()
}

/// How many storage words stand in the list.
pub fn count_storages(specs: &[Spec]) -> usize
    ensures { result ≡ many is_storage specs.now }
{
    specs.iter().filter(|s| is_storage(s.word)).count()
}

/// How many words `typedef` stand in the list.
pub fn count_typedefs(specs: &[Spec]) -> usize
    ensures { result ≡ many is_typedef_word specs.now }
{
    specs.iter().filter(|s| is_typedef_word(s.word)).count()
}

fn count_declared_types(specs: &[Spec]) -> usize
    ensures { result ≡ many is_declared_type specs.now }
{
    specs.iter().filter(|s| is_declared_type(s.word)).count()
}

// Whether so many type words form an integer type.
fn is_integer_list(chars: usize, shorts: usize, ints: usize, longs: usize, signs: usize) -> bool
    ensures { result ≡ is_integer_list chars shorts ints longs signs }
{
    if signs > 1 {
        return false;
    }
    (chars == 1 && shorts == 0 && ints == 0 && longs == 0)
        || (chars == 0 && shorts == 1 && ints <= 1 && longs == 0)
        || (chars == 0 && shorts == 0 && ints <= 1 && longs <= 2 && 1 <= ints + longs + signs)
}

/// Whether the list names exactly one type.
pub fn is_type_list(specs: &[Spec]) -> bool
    ensures { result ≡ is_type_list specs.now }
{
    let chars = count(Basic::Char, specs);
    let shorts = count(Basic::Short, specs);
    let ints = count(Basic::Int, specs);
    let longs = count(Basic::Long, specs);
    let signed = count(Basic::Signed, specs);
    let unsigned = count(Basic::Unsigned, specs);
    let named = count_declared_types(specs);
    let lone = count_lone(specs);
    let basics = chars + shorts + ints + longs + signed + unsigned;
    (named + lone == 1 && basics == 0)
        || (named + lone == 0 && is_integer_list(chars, shorts, ints, longs, signed + unsigned))
}

/// Whether these may be the specifiers of a type name.
pub fn is_type_name_list(specs: &[Spec]) -> bool
    ensures { result ≡ is_type_name_list specs.now }
{
    is_type_list(specs) && count_storages(specs) <= 1 && count_typedefs(specs) == 0
}
