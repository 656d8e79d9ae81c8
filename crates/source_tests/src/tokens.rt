//! Sources and their tokens, each with its place, and sources that the lexis refuses.

use crate::stations::{Way, answers, rows_are_so};
use c_lexer::lex;
use std::alloc::Global;
use std::test::Fail;
use tm_terms::limits::TOKENS;
use tm_terms::{IntConstant, Longs, Name, Place, Shape, Sign, Token, Word};

// Line and column; the word.
macro_rules! word {
    ($line:literal, $col:literal, $word:ident) => {
        Token {
            shape: Shape::Word(Word::$word),
            place: Place {
                line: $line,
                col: $col,
            },
        }
    };
}

// Line and column; the sign.
macro_rules! sign {
    ($line:literal, $col:literal, $sign:ident) => {
        Token {
            shape: Shape::Sign(Sign::$sign),
            place: Place {
                line: $line,
                col: $col,
            },
        }
    };
}

// Line and column; the byte at which the name stood first, and its length.
macro_rules! name {
    ($line:literal, $col:literal, $start:literal, $length:literal) => {
        Token {
            shape: Shape::Name(Name {
                start: $start,
                length: $length,
            }),
            place: Place {
                line: $line,
                col: $col,
            },
        }
    };
}

// Line and column; the value, whether it is written in decimal, and the suffixes.
macro_rules! constant {
    ($line:literal, $col:literal, $value:literal, $decimal:literal, $unsigned:literal, $longs:ident) => {
        Token {
            shape: Shape::Integer(IntConstant {
                value: $value,
                decimal: $decimal,
                unsigned: $unsigned,
                longs: Longs::$longs,
            }),
            place: Place {
                line: $line,
                col: $col,
            },
        }
    };
}

// Line and column; the value.
macro_rules! character {
    ($line:literal, $col:literal, $value:literal) => {
        Token {
            shape: Shape::Character($value),
            place: Place {
                line: $line,
                col: $col,
            },
        }
    };
}

// Sources and their tokens.
static TAKEN: [(&[u8], &[Token]); 38] = [
    (b"", &[]),
    (
        b"int x;",
        &[word!(1, 1, Int), name!(1, 5, 4, 1), sign!(1, 6, Semicolon)],
    ),
    (
        b"abc b abc ab",
        &[
            name!(1, 1, 0, 3),
            name!(1, 5, 4, 1),
            name!(1, 7, 0, 3),
            name!(1, 11, 10, 2),
        ],
    ),
    (
        b"int ints Int",
        &[word!(1, 1, Int), name!(1, 5, 4, 4), name!(1, 10, 9, 3)],
    ),
    (b"_ A9_z", &[name!(1, 1, 0, 1), name!(1, 3, 2, 4)]),
    (b"\r\n\tx\x0b\x0cy", &[name!(2, 2, 3, 1), name!(2, 5, 6, 1)]),
    (b"a/**/b", &[name!(1, 1, 0, 1), name!(1, 6, 5, 1)]),
    (b"/*/ a */b", &[name!(1, 9, 8, 1)]),
    (
        b"/* /* */ a */",
        &[name!(1, 10, 9, 1), sign!(1, 12, Star), sign!(1, 13, Slash)],
    ),
    (b"/*\n\n*/ a", &[name!(3, 4, 7, 1)]),
    (b"a // b\n c", &[name!(1, 1, 0, 1), name!(2, 2, 8, 1)]),
    (b"a // /* b\n c", &[name!(1, 1, 0, 1), name!(2, 2, 11, 1)]),
    (
        b"# 1 \"a.c\"\nx=1/x;",
        &[
            name!(2, 1, 10, 1),
            sign!(2, 2, Equal),
            constant!(2, 3, 1, true, false, None),
            sign!(2, 4, Slash),
            name!(2, 5, 10, 1),
            sign!(2, 6, Semicolon),
        ],
    ),
    (b"  #\t line 3 /**/\n\nb", &[name!(3, 1, 18, 1)]),
    (b"#pragma x\\ a\nb", &[name!(2, 1, 13, 1)]),
    (b"#line", &[]),
    (b"# 1.5\na", &[name!(2, 1, 6, 1)]),
    (
        b"1 1u 1U 1l 1L 1ul 1uL 1Ul 1UL 1lu 1lU 1Lu 1LU 1ll 1LL 1ull 1uLL 1Ull 1ULL 1llu 1llU 1LLu 1LLU",
        &[
            constant!(1, 1, 1, true, false, None),
            constant!(1, 3, 1, true, true, None),
            constant!(1, 6, 1, true, true, None),
            constant!(1, 9, 1, true, false, One),
            constant!(1, 12, 1, true, false, One),
            constant!(1, 15, 1, true, true, One),
            constant!(1, 19, 1, true, true, One),
            constant!(1, 23, 1, true, true, One),
            constant!(1, 27, 1, true, true, One),
            constant!(1, 31, 1, true, true, One),
            constant!(1, 35, 1, true, true, One),
            constant!(1, 39, 1, true, true, One),
            constant!(1, 43, 1, true, true, One),
            constant!(1, 47, 1, true, false, Two),
            constant!(1, 51, 1, true, false, Two),
            constant!(1, 55, 1, true, true, Two),
            constant!(1, 60, 1, true, true, Two),
            constant!(1, 65, 1, true, true, Two),
            constant!(1, 70, 1, true, true, Two),
            constant!(1, 75, 1, true, true, Two),
            constant!(1, 80, 1, true, true, Two),
            constant!(1, 85, 1, true, true, Two),
            constant!(1, 90, 1, true, true, Two),
        ],
    ),
    (
        b"0 017 0x1F 0XaB 0xFFu 00L",
        &[
            constant!(1, 1, 0, false, false, None),
            constant!(1, 3, 15, false, false, None),
            constant!(1, 7, 31, false, false, None),
            constant!(1, 12, 171, false, false, None),
            constant!(1, 17, 255, false, true, None),
            constant!(1, 23, 0, false, false, One),
        ],
    ),
    (
        b"0xe+1 .5",
        &[
            constant!(1, 1, 14, false, false, None),
            sign!(1, 4, Plus),
            constant!(1, 5, 1, true, false, None),
            sign!(1, 7, Dot),
            constant!(1, 8, 5, true, false, None),
        ],
    ),
    (
        b"170141183460469231731687303715884105727",
        &[constant!(
            1,
            1,
            170141183460469231731687303715884105727,
            true,
            false,
            None
        )],
    ),
    (
        b"0x7fffffffffffffffffffffffffffffffu",
        &[constant!(
            1,
            1,
            170141183460469231731687303715884105727,
            false,
            true,
            None
        )],
    ),
    (
        b"'a''\"' '\\\"' '\\'' '\\?' '\\\\'",
        &[
            character!(1, 1, 97),
            character!(1, 4, 34),
            character!(1, 8, 34),
            character!(1, 13, 39),
            character!(1, 18, 63),
            character!(1, 23, 92),
        ],
    ),
    (
        b"'\\a' '\\b' '\\f' '\\n' '\\r' '\\t' '\\v'",
        &[
            character!(1, 1, 7),
            character!(1, 6, 8),
            character!(1, 11, 12),
            character!(1, 16, 10),
            character!(1, 21, 13),
            character!(1, 26, 9),
            character!(1, 31, 11),
        ],
    ),
    (
        b"'\\0' '\\377' '\\123' '\\7'",
        &[
            character!(1, 1, 0),
            character!(1, 6, -1),
            character!(1, 13, 83),
            character!(1, 20, 7),
        ],
    ),
    (
        b"'\\x41' '\\xfF' '\\x00000000000000000000000000000000007F'",
        &[
            character!(1, 1, 65),
            character!(1, 8, -1),
            character!(1, 15, 127),
        ],
    ),
    (
        b"'\xc8' '\0' '\x7f' '\x80'",
        &[
            character!(1, 1, -56),
            character!(1, 5, 0),
            character!(1, 9, 127),
            character!(1, 13, -128),
        ],
    ),
    (
        b"auto break case char const continue default do else enum extern for if inline",
        &[
            word!(1, 1, Auto),
            word!(1, 6, Break),
            word!(1, 12, Case),
            word!(1, 17, Char),
            word!(1, 22, Const),
            word!(1, 28, Continue),
            word!(1, 37, Default),
            word!(1, 45, Do),
            word!(1, 48, Else),
            word!(1, 53, Enum),
            word!(1, 58, Extern),
            word!(1, 65, For),
            word!(1, 69, If),
            word!(1, 72, Inline),
        ],
    ),
    (
        b"int long register restrict return short signed sizeof static struct switch",
        &[
            word!(1, 1, Int),
            word!(1, 5, Long),
            word!(1, 10, Register),
            word!(1, 19, Restrict),
            word!(1, 28, Return),
            word!(1, 35, Short),
            word!(1, 41, Signed),
            word!(1, 48, Sizeof),
            word!(1, 55, Static),
            word!(1, 62, Struct),
            word!(1, 69, Switch),
        ],
    ),
    (
        b"typedef unsigned void volatile while",
        &[
            word!(1, 1, Typedef),
            word!(1, 9, Unsigned),
            word!(1, 18, Void),
            word!(1, 23, Volatile),
            word!(1, 32, While),
        ],
    ),
    (
        b"_Bool __task __mutex __lock __unlock __yield __input __islocked",
        &[
            word!(1, 1, Bool),
            word!(1, 7, Task),
            word!(1, 14, Mutex),
            word!(1, 22, Lock),
            word!(1, 29, Unlock),
            word!(1, 38, Yield),
            word!(1, 46, Input),
            word!(1, 54, Islocked),
        ],
    ),
    (
        b"[ ] ( ) { } . -> ++ -- & * + - ~ ! / % << >> < > <= >= == != ^ | && || ? : ; =",
        &[
            sign!(1, 1, OpenBracket),
            sign!(1, 3, CloseBracket),
            sign!(1, 5, OpenParenthesis),
            sign!(1, 7, CloseParenthesis),
            sign!(1, 9, OpenBrace),
            sign!(1, 11, CloseBrace),
            sign!(1, 13, Dot),
            sign!(1, 15, Arrow),
            sign!(1, 18, PlusPlus),
            sign!(1, 21, MinusMinus),
            sign!(1, 24, And),
            sign!(1, 26, Star),
            sign!(1, 28, Plus),
            sign!(1, 30, Minus),
            sign!(1, 32, Tilde),
            sign!(1, 34, Not),
            sign!(1, 36, Slash),
            sign!(1, 38, Percent),
            sign!(1, 40, ShiftLeft),
            sign!(1, 43, ShiftRight),
            sign!(1, 46, Less),
            sign!(1, 48, Greater),
            sign!(1, 50, LessEqual),
            sign!(1, 53, GreaterEqual),
            sign!(1, 56, EqualEqual),
            sign!(1, 59, NotEqual),
            sign!(1, 62, Caret),
            sign!(1, 64, Or),
            sign!(1, 66, AndAnd),
            sign!(1, 69, OrOr),
            sign!(1, 72, Question),
            sign!(1, 74, Colon),
            sign!(1, 76, Semicolon),
            sign!(1, 78, Equal),
        ],
    ),
    (
        b"*= /= %= += -= <<= >>= &= ^= |= ,",
        &[
            sign!(1, 1, StarEqual),
            sign!(1, 4, SlashEqual),
            sign!(1, 7, PercentEqual),
            sign!(1, 10, PlusEqual),
            sign!(1, 13, MinusEqual),
            sign!(1, 16, ShiftLeftEqual),
            sign!(1, 20, ShiftRightEqual),
            sign!(1, 24, AndEqual),
            sign!(1, 27, CaretEqual),
            sign!(1, 30, OrEqual),
            sign!(1, 33, Comma),
        ],
    ),
    (
        b"a>>=b",
        &[
            name!(1, 1, 0, 1),
            sign!(1, 2, ShiftRightEqual),
            name!(1, 5, 4, 1),
        ],
    ),
    (
        b"a+++++b",
        &[
            name!(1, 1, 0, 1),
            sign!(1, 2, PlusPlus),
            sign!(1, 4, PlusPlus),
            sign!(1, 6, Plus),
            name!(1, 7, 6, 1),
        ],
    ),
    (
        b"x-->y",
        &[
            name!(1, 1, 0, 1),
            sign!(1, 2, MinusMinus),
            sign!(1, 4, Greater),
            name!(1, 5, 4, 1),
        ],
    ),
    (b"..", &[sign!(1, 1, Dot), sign!(1, 2, Dot)]),
    (
        b"<<<<=",
        &[sign!(1, 1, ShiftLeft), sign!(1, 3, ShiftLeftEqual)],
    ),
];

// Sources that are refused, and the lines that say so.
static REFUSED: [(&str, &str); 45] = [
    ("/* x", "1:1 refused Lexical\n"),
    ("/*/", "1:1 refused Lexical\n"),
    ("#define A 1", "1:1 refused Lexical\n"),
    ("  #pragmatic", "1:3 refused Lexical\n"),
    ("# 12x", "1:1 refused Lexical\n"),
    ("#\n1", "1:1 refused Lexical\n"),
    ("a # 1", "1:3 refused Lexical\n"),
    ("/*\n*/ # 1", "2:4 refused Lexical\n"),
    ("int x;\0", "1:7 refused Lexical\n"),
    (
        "int x=170141183460469231731687303715884105728;",
        "1:7 refused Lexical\n",
    ),
    (
        "0x80000000000000000000000000000000",
        "1:1 refused Lexical\n",
    ),
    (
        "99999999999999999999999999999999999999999999999999999999",
        "1:1 refused Lexical\n",
    ),
    ("int x=0x;", "1:7 refused Lexical\n"),
    ("08", "1:1 refused Lexical\n"),
    ("0xg", "1:1 refused Lexical\n"),
    ("0b1", "1:1 refused Lexical\n"),
    ("1lL", "1:1 refused Lexical\n"),
    ("1lul", "1:1 refused Lexical\n"),
    ("1uu", "1:1 refused Lexical\n"),
    ("1lll", "1:1 refused Lexical\n"),
    ("1.5", "1:1 refused Lexical\n"),
    ("1e5", "1:1 refused Lexical\n"),
    ("1...3", "1:1 refused Lexical\n"),
    ("int x='\\400';", "1:7 refused Lexical\n"),
    ("'\\x100'", "1:1 refused Lexical\n"),
    ("'\\x'", "1:1 refused Lexical\n"),
    ("'\\18'", "1:1 refused Lexical\n"),
    ("'\\1234'", "1:1 refused Lexical\n"),
    ("''", "1:1 refused Lexical\n"),
    ("'ab'", "1:1 refused Lexical\n"),
    ("'\\q'", "1:1 refused Lexical\n"),
    ("'\n'", "1:1 refused Lexical\n"),
    ("'a", "1:1 refused Lexical\n"),
    ("'\\", "1:1 refused Lexical\n"),
    ("'\u{e9}'", "1:1 refused Lexical\n"),
    ("float x;", "1:1 refused Unsupported\n"),
    ("int\ngoto;", "2:1 refused Unsupported\n"),
    ("a....", "1:2 refused Unsupported\n"),
    ("union U u; double f;", "1:1 refused Unsupported\n"),
    ("_Complex", "1:1 refused Unsupported\n"),
    ("; _Imaginary", "1:3 refused Unsupported\n"),
    ("double x; @", "1:11 refused Lexical\n"),
    ("$", "1:1 refused Lexical\n"),
    ("\\\n", "1:1 refused Lexical\n"),
    ("\"a\"", "1:1 refused Lexical\n"),
];

fn has_tokens(alloc: Global, source: &[u8], expected: &[Token]) -> bool {
    if source.len() > 1_048_576 {
        return false;
    }
    match lex(alloc, source, TOKENS as usize) {
        Ok(tokens) => tokens.as_slice() == expected,
        Err(_) => false,
    }
}

#[test]
fn tokens(rt: HostRuntime) -> Result<(), Fail> {
    for (row, (source, expected)) in TAKEN.iter().enumerate() {
        assert!(rt; has_tokens(rt.alloc(), *source, *expected), "row {row}");
    }
    rows_are_so(&rt, rt.alloc(), Way::Taken, &REFUSED)?;
    answers(
        &rt,
        rt.alloc(),
        Way::Taken,
        "a byte 128",
        b" \x80",
        "1:2 refused Lexical\n",
    )
}
