//! What specifiers say (C99 6.7).
use crate::types::Qualified;
use tm_trees::Storage;

/// What the words of a list of specifiers say together, in whatever order they stand: a storage word, qualifiers, the
/// words of C's own types, and the type that a declaration of the file names.
#[derive(Clone, Copy)]
pub struct Said {
    pub storage: Option<Storage>,
    pub constant: bool,
    pub volatile: bool,
    pub void: bool,
    pub boolean: bool,
    pub character: bool,
    pub short: bool,
    pub unsigned: bool,
    pub long: bool,
    /// `long` stands twice.
    pub long_long: bool,
    /// The type of a typedef name, a structure or an enumeration.
    pub declared: Option<Qualified>,
}

/// What a declarator has made so far of the type that specifiers name.
#[derive(Clone, Copy)]
pub struct Shape {
    pub of: Qualified,
    /// An array of `of` without a length.
    pub is_open: bool,
    /// A pointer to `void` or a volatile pointer is part of it.
    pub left_out: bool,
    /// An array of elements whose size is not known, or a pointer to an array without a length, is part of it.
    pub mismatch: bool,
}
