//! Where code is built.
ghost use Rattle.body_builder.specs.Fragments.{tree_in, AreSizes};

use crate::fragments::Size;
use std::alloc::Global;
use tm_laid::Laid;

/// A call path of a program, below which chains of calls are at most `depth` long, and the sizes of the paths of calls,
/// so far as they are known.
#[derive(Clone, Copy)]
pub struct Here<'a> {
    pub alloc: Global,
    pub laid: &'a Laid,
    pub sizes: &'a [Option<Size>],
    pub path: u32,
    pub depth: u32,
    ghost known: { AreSizes (tree_in laid.now) sizes.now },
}
