use crate::places::Place;

/// A name of the source: the byte at which its text first stands as a name, counted from 0, and
/// its length in bytes. Two names of one source are equal exactly where their texts are.
#[derive(Clone, Copy, PartialEq, Eq, PartialOrd, Ord, Hash)]
pub struct Name {
    pub start: u32,
    pub length: u32,
}

/// The suffix l of an integer constant: none, `l` or `ll`.
#[derive(Clone, Copy, PartialEq, Eq)]
pub enum Longs {
    None,
    One,
    Two,
}

/// An integer constant (C99 6.4.4.1): its value, whether it is written in decimal, and its suffixes.
#[derive(Clone, Copy, PartialEq, Eq)]
pub struct IntConstant {
    pub value: u128,
    pub decimal: bool,
    pub unsigned: bool,
    pub longs: Longs,
}

/// A word of the language: the keywords of C99 6.4.1, and the analyser's own.
#[derive(Clone, Copy, PartialEq, Eq)]
pub enum Word {
    Auto,
    Break,
    Case,
    Char,
    Const,
    Continue,
    Default,
    Do,
    Double,
    Else,
    Enum,
    Extern,
    Float,
    For,
    Goto,
    If,
    Inline,
    Int,
    Long,
    Register,
    Restrict,
    Return,
    Short,
    Signed,
    Sizeof,
    Static,
    Struct,
    Switch,
    Typedef,
    Union,
    Unsigned,
    Void,
    Volatile,
    While,
    /// `_Bool`
    Bool,
    /// `_Complex`
    Complex,
    /// `_Imaginary`
    Imaginary,
    /// `__task`
    Task,
    /// `__mutex`
    Mutex,
    /// `__lock`
    Lock,
    /// `__unlock`
    Unlock,
    /// `__yield`
    Yield,
    /// `__input`
    Input,
    /// `__islocked`
    Islocked,
}

/// A punctuator (C99 6.4.6, without digraphs).
#[derive(Clone, Copy, PartialEq, Eq)]
pub enum Sign {
    /// `[`
    OpenBracket,
    /// `]`
    CloseBracket,
    /// `(`
    OpenParenthesis,
    /// `)`
    CloseParenthesis,
    /// `{`
    OpenBrace,
    /// `}`
    CloseBrace,
    /// `.`
    Dot,
    /// `->`
    Arrow,
    /// `++`
    PlusPlus,
    /// `--`
    MinusMinus,
    /// `&`
    And,
    /// `*`
    Star,
    /// `+`
    Plus,
    /// `-`
    Minus,
    /// `~`
    Tilde,
    /// `!`
    Not,
    /// `/`
    Slash,
    /// `%`
    Percent,
    /// `<<`
    ShiftLeft,
    /// `>>`
    ShiftRight,
    /// `<`
    Less,
    /// `>`
    Greater,
    /// `<=`
    LessEqual,
    /// `>=`
    GreaterEqual,
    /// `==`
    EqualEqual,
    /// `!=`
    NotEqual,
    /// `^`
    Caret,
    /// `|`
    Or,
    /// `&&`
    AndAnd,
    /// `||`
    OrOr,
    /// `?`
    Question,
    /// `:`
    Colon,
    /// `;`
    Semicolon,
    /// `=`
    Equal,
    /// `*=`
    StarEqual,
    /// `/=`
    SlashEqual,
    /// `%=`
    PercentEqual,
    /// `+=`
    PlusEqual,
    /// `-=`
    MinusEqual,
    /// `<<=`
    ShiftLeftEqual,
    /// `>>=`
    ShiftRightEqual,
    /// `&=`
    AndEqual,
    /// `^=`
    CaretEqual,
    /// `|=`
    OrEqual,
    /// `,`
    Comma,
    /// `...`
    Ellipsis,
}

/// What a token is, without its place.
#[derive(Clone, Copy, PartialEq, Eq)]
pub enum Shape {
    Name(Name),
    Word(Word),
    Integer(IntConstant),
    /// A character constant, with its value as a signed `char`.
    Character(i8),
    Sign(Sign),
}

/// A token, and the place of its first byte.
#[derive(Clone, Copy, PartialEq, Eq)]
pub struct Token {
    pub shape: Shape,
    pub place: Place,
}

/// What begins at a byte of the source, the longest that does: a token's shape, or no shape for what
/// stands between tokens (a blank, a comment or a skipped line), and how many bytes it takes. A name
/// is given as it stands here, with the byte at which it begins.
#[derive(Clone, Copy, PartialEq, Eq)]
pub struct Piece {
    pub shape: Option<Shape>,
    pub length: usize,
}
