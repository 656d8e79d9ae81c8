use tm_numbers::power_of_two;

/// An integer type of C (C99 6.2.5) in the data model of the analyser: two's complement, `char`
/// signed with 8 bits, `short` 16, `int` and `long` 32, `long long` 64. An enumeration type is `Int`.
#[derive(Clone, Copy, PartialEq, Eq, PartialOrd, Ord, Hash)]
pub enum IntType {
    /// `_Bool`, which holds 0 and 1: an unsigned type of one bit.
    Bool,
    /// `char` and `signed char`.
    Char,
    /// `unsigned char`
    UChar,
    /// `short`
    Short,
    /// `unsigned short`
    UShort,
    /// `int`
    Int,
    /// `unsigned int`
    UInt,
    /// `long`, a type of its own with the values of `int`.
    Long,
    /// `unsigned long`
    ULong,
    /// `long long`
    LLong,
    /// `unsigned long long`
    ULLong,
}

impl IntType {
    ghost use Rattle.std.specs.Prelude.{◌≡◌, ◌<◌, ◌≤◌, ◌↔◌, IsTrue};
    ghost use Rattle.tm_cint.specs.IntTypes.{width_of, is_signed, precision_of, lo_of, hi_of, IsIn};

    /// The number of bits, the sign bit included (C99 6.2.6.2): 1 to 64.
    pub fn width(self) -> u32
        ensures value { result ≡ width_of self }
        ensures not_zero { 0 < result }
        ensures at_most { result ≤ 64 }
    {
        match self {
            IntType::Bool => 1,
            IntType::Char | IntType::UChar => 8,
            IntType::Short | IntType::UShort => 16,
            IntType::Int | IntType::UInt | IntType::Long | IntType::ULong => 32,
            IntType::LLong | IntType::ULLong => 64,
        }
    }

    /// Whether the type has negative values.
    pub fn signed(self) -> bool
        ensures { result ≡ is_signed self }
    {
        match self {
            IntType::Bool
            | IntType::UChar
            | IntType::UShort
            | IntType::UInt
            | IntType::ULong
            | IntType::ULLong => false,
            IntType::Char | IntType::Short | IntType::Int | IntType::Long | IntType::LLong => true,
        }
    }

    /// The number of bits that represent values, without the sign bit (C99 6.2.6.2).
    fn precision(self) -> u32
        ensures value { result ≡ precision_of self }
        ensures at_most { result ≤ 64 }
    {
        if self.signed() {
            self.width() - 1
        } else {
            self.width()
        }
    }

    /// The least value of the type (C99 5.2.4.2.1).
    pub fn lo(self) -> i128
        ensures { result ≡ lo_of self }
    {
        if self.signed() {
            -power_of_two(self.precision())
        } else {
            0
        }
    }

    /// The greatest value of the type (C99 5.2.4.2.1).
    pub fn hi(self) -> i128
        ensures { result ≡ hi_of self }
    {
        power_of_two(self.precision()) - 1
    }

    /// Whether the type has the value v.
    pub fn holds(self, v: i128) -> bool
        ensures { IsTrue result ↔ IsIn self v }
    {
        self.lo() <= v && v <= self.hi()
    }
}
