//! What is built for call paths.
ghost use Rattle.std.specs.Prelude.{◌≡◌, IfOk};
ghost use Rattle.body_builder.specs.lowering.Built.{path_piece};
ghost use Rattle.body_builder.specs.Fragments.{tree_in, so_far, IsPart, AreSizes};
ghost use Rattle.graph_builder.specs.Ends.{closing};

use crate::bodies::{build_body, build_nothing};
use crate::ends::End;
use body_builder::{Fragment, Here, Size};
use std::alloc::Global;
use tm_laid::Laid;
use tm_lattice::NoMemory;

/// The call paths of a program, and the sizes of those of calls, so far as they are known.
#[derive(Clone, Copy)]
pub struct Paths<'a> {
    pub alloc: Global,
    pub laid: &'a Laid,
    pub sizes: &'a [Option<Size>],
    ghost known: { AreSizes (tree_in laid.now) sizes.now },
}

impl Paths<'_> {
    /// The body of a path, with this end, where chains of calls from its caller on are at most `depth` long.
    #[tactic(auto, using(crate::proofs::PathPieces::nothing_left, crate::proofs::PathPieces::one_call))]
    pub(crate) fn build(
        &self,
        to: &mut Fragment,
        end: End,
        path: u32,
        depth: u32,
    ) -> Result<Option<u32>, NoMemory>
        ensures { IfOk result (λ t. IsPart (path_piece (closing end) (tree_in self.now.laid.now) depth path
            (so_far (tree_in self.now.laid.now) to.old)) (so_far (tree_in self.now.laid.now) to.new) t) }
    {
        let below = depth.checked_sub(1);
        let here = Here {
            alloc: self.alloc,
            laid: self.laid,
            sizes: self.sizes,
            path,
            depth: below.unwrap_or(0),
        };
        match below {
            Some(_) => build_body(&here, to, end),
            None => build_nothing(&here, to),
        }
    }
}
