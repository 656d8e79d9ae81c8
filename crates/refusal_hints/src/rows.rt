//! A row of patterns.

use crate::constructs::Construct;

/// Patterns of the first word of a declaration or statement, of the words before a place, and of those from it on, each
/// a text with the words of the pattern; and what stands there where all three fit.
pub type Row<'a> = (&'a [u8], &'a [u8], &'a [u8], Construct);
