//! Trees of declarations, statements and whole files, with the definition of which tokens spell them (C99 6.7 to 6.9,
//! cut to the profile). They keep what is written: no tree knows the type of a name, or whether it is well typed.
//!
//! `int *x[4];` is a declaration of one specifier and one declarator: a star, the name `x`, and one length, whose
//! place is that of the `[`.
#![tactic(auto)]

mod declarations;
mod files;
mod statements;

pub use declarations::{
    Declaration, Declarator, Enumerator, InitDeclarator, Initialiser, Length, Member, Specifier,
    Tag, Value,
};
pub use files::{File, Function, Item, Parameter, Parameters};
pub use statements::{Block, BlockPart, ForFirst, Statement, SwitchPart};
pub use tm_terms::{BinOp, IntType, Limit, Name, Place, Storage};
