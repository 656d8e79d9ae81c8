ghost use Rattle.std.specs.Prelude.{◌≡◌, ℕ, List, bytes_eq, find, map, option_map};
ghost use Rattle.tm_terms.specs.declared.tokens.Word.{Word as WordOf};
ghost use Rattle.tm_terms.specs.Lexis.{word_of};

use tm_terms::Word;

/// The words by their spelling.
static WORDS: [(&[u8], Word); 44] = [
    (b"auto", Word::Auto),
    (b"break", Word::Break),
    (b"case", Word::Case),
    (b"char", Word::Char),
    (b"const", Word::Const),
    (b"continue", Word::Continue),
    (b"default", Word::Default),
    (b"do", Word::Do),
    (b"double", Word::Double),
    (b"else", Word::Else),
    (b"enum", Word::Enum),
    (b"extern", Word::Extern),
    (b"float", Word::Float),
    (b"for", Word::For),
    (b"goto", Word::Goto),
    (b"if", Word::If),
    (b"inline", Word::Inline),
    (b"int", Word::Int),
    (b"long", Word::Long),
    (b"register", Word::Register),
    (b"restrict", Word::Restrict),
    (b"return", Word::Return),
    (b"short", Word::Short),
    (b"signed", Word::Signed),
    (b"sizeof", Word::Sizeof),
    (b"static", Word::Static),
    (b"struct", Word::Struct),
    (b"switch", Word::Switch),
    (b"typedef", Word::Typedef),
    (b"union", Word::Union),
    (b"unsigned", Word::Unsigned),
    (b"void", Word::Void),
    (b"volatile", Word::Volatile),
    (b"while", Word::While),
    (b"_Bool", Word::Bool),
    (b"_Complex", Word::Complex),
    (b"_Imaginary", Word::Imaginary),
    (b"__task", Word::Task),
    (b"__mutex", Word::Mutex),
    (b"__lock", Word::Lock),
    (b"__unlock", Word::Unlock),
    (b"__yield", Word::Yield),
    (b"__input", Word::Input),
    (b"__islocked", Word::Islocked),
];

// What a table has for a text.
fn found_in(table: &[(&[u8], Word)], text: &[u8]) -> Option<Word>
    ensures { result ≡ option_map (λ (e : List ℕ × WordOf). e.1)
        (find (λ e. bytes_eq text.now e.0) (map (λ e. (e.0.now, e.1)) table.now)) }
{
    for (spelling, word) in table {
        if text == *spelling {
            return Some(*word);
        }
    }
    None
}

/// The word that a text spells, if it spells one.
#[tactic(auto, unfolding(tm_terms::specs::Lexis::word_of, tm_terms::specs::Lexis::words))]
pub fn word_of(text: &[u8]) -> Option<Word>
    ensures { result ≡ word_of text.now }
{
    found_in(&WORDS, text)
}
