//! Types (C99 6.2.5): numbers of rows in one table.
ghost use Rattle.std.specs.Prelude.{◌≡◌};
ghost use Rattle.tm_typed.specs.Types.{int_index, is_same_int, is_pointer_scalar, bytes_of, is_enumerated};
ghost use Rattle.tm_typed.specs.Types.{enumeration_number};

use tm_trees::IntType;

/// A type by its number in the table, with the qualifiers of what has it (C99 6.7.3). The qualifiers of an array
/// are those of its elements: they stand with whatever has the array, not with the type.
#[derive(Clone, Copy, PartialEq, Eq, Hash)]
pub struct Qualified {
    pub number: u32,
    pub constant: bool,
    pub volatile: bool,
}

impl Qualified {
    ghost use Rattle.std.specs.Prelude.{◌≡◌};
    ghost use Rattle.tm_typed.specs.Operands.{qualified_as};

    /// The type with its own qualifiers and those of another.
    pub fn qualified_as(self, other: Qualified) -> Qualified
        ensures { result ≡ qualified_as self other }
    {
        Qualified {
            number: self.number,
            constant: self.constant || other.constant,
            volatile: self.volatile || other.volatile,
        }
    }
}

/// A type. The types of which it is made stand earlier in the table.
#[derive(Clone, Copy, PartialEq, Eq, Hash)]
pub enum CType {
    Void,
    Int(IntType),
    /// A pointer to this type.
    Pointer(Qualified),
    /// An array of this many elements of a type.
    Array { element: u32, length: u32 },
    /// A structure, by its number.
    Struct(u32),
}

/// A row of the table: a type, and what follows from it.
#[derive(Clone, Copy, PartialEq, Eq)]
pub struct TypeEntry {
    pub ctype: CType,
    /// The first type of the table that is the same but for `const`.
    pub class: u32,
    /// Scalar cells, 65,537 where there are more than 65,536; 0 for `void` and for a structure, which has its own.
    pub cells: u32,
    /// The cells that an analysis tells apart, likewise: an array of 65 elements and more counts as one element.
    pub abstract_cells: u32,
    /// Bytes modulo 2^32, likewise.
    pub size: u32,
    /// Bytes likewise, where `long long` is aligned to 4, as on i386.
    pub tight_size: u32,
    /// Bytes to a multiple of which an object's address is aligned, likewise.
    pub alignment: u32,
    /// A pointer, or an array of such.
    pub of_pointers: bool,
}

/// The type of a scalar cell: an integer type, or a pointer type by its class.
#[derive(Clone, Copy, PartialEq, Eq)]
pub enum Scalar {
    Int(IntType),
    Pointer(u32),
}

/// Whether a scalar is a pointer.
pub fn is_pointer_scalar(scalar: Scalar) -> bool
    ensures { result ≡ is_pointer_scalar scalar }
{
    match scalar {
        Scalar::Int(_) => false,
        Scalar::Pointer(_) => true,
    }
}

/// The type of a type name (C99 6.7.6): what it is, whether it is `void *` as in the null constant, and whether it is a
/// void or a volatile pointer, which are left out.
#[derive(Clone, Copy)]
pub struct CastType {
    pub of: Qualified,
    pub is_void_pointer: bool,
    pub is_left_out: bool,
}

/// The number of an integer type in their order, from 0.
pub fn int_index(of: IntType) -> u32
    ensures { result ≡ int_index of }
{
    match of {
        IntType::Bool => 0,
        IntType::Char => 1,
        IntType::UChar => 2,
        IntType::Short => 3,
        IntType::UShort => 4,
        IntType::Int => 5,
        IntType::UInt => 6,
        IntType::Long => 7,
        IntType::ULong => 8,
        IntType::LLong => 9,
        IntType::ULLong => 10,
    }
}

/// Whether two integer types are the same.
pub fn is_same_int(left: IntType, right: IntType) -> bool
    ensures { result ≡ is_same_int left right }
{
    int_index(left) == int_index(right)
}

/// The bytes of an integer type.
pub fn bytes_of(of: IntType) -> u32
    ensures { result ≡ bytes_of of }
{
    match of {
        IntType::Bool | IntType::Char | IntType::UChar => 1,
        IntType::Short | IntType::UShort => 2,
        IntType::Int | IntType::UInt | IntType::Long | IntType::ULong => 4,
        IntType::LLong | IntType::ULLong => 8,
    }
}

/// The number of the type of an enumeration (C99 6.7.2.2p4): that of `int`, or the row of its own for those whose
/// constants are all from 0 on.
pub fn enumeration_number(is_from_zero: bool) -> u32
    ensures { result ≡ enumeration_number is_from_zero }
{
    if is_from_zero { 12 } else { 6 }
}

/// Whether this is the number of the type of the enumerations whose constants are all from 0 on, which is `int` here and
/// `unsigned int` for some compilers.
pub fn is_enumerated(number: u32) -> bool
    ensures { result ≡ is_enumerated number }
{
    number == 12
}
