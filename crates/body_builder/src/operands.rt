//! Expressions as the table of lowering has them.
ghost use Rattle.std.specs.Prelude.{◌≡◌, IfOk};
ghost use Rattle.tm_typed.specs.TypedTrees.{rvalue_tree};
ghost use Rattle.lowering.specs.Table.{codes};
ghost use Rattle.lowering.specs.Built.{code_piece, fork_piece};
ghost use Rattle.body_builder.specs.Fragments.{tree_in, so_far, calls_on, IsPart, IsForked};

use crate::expressions::build_value;
use crate::fragments::{Fragment, Wanted};
use crate::here::Here;
use tm_lattice::NoMemory;
use tm_typed::Rvalue;

/// An expression for its value: the temporary of the value, if it has one.
pub fn build_operand(
    here: &Here<'_>,
    to: &mut Fragment,
    rvalue: &Rvalue,
) -> Result<Option<u32>, NoMemory>
    ensures { IfOk result (λ t. IsPart (code_piece (calls_on (tree_in here.now.laid.now) here.now.depth here.now.path)
        (codes (tree_in here.now.laid.now) here.now.path (rvalue_tree rvalue.now)).value
        (so_far (tree_in here.now.laid.now) to.old)) (so_far (tree_in here.now.laid.now) to.new) t) }
{
    let found = build_value(here, to, rvalue, Wanted::Value)?;
    Ok(found.temp)
}

/// An expression as a branch: control goes on where it holds, and this is the node where it does not.
pub fn build_condition(here: &Here<'_>, to: &mut Fragment, rvalue: &Rvalue) -> Result<u32, NoMemory>
    ensures { IfOk result (λ other. IsForked (fork_piece (calls_on (tree_in here.now.laid.now) here.now.depth
        here.now.path) (codes (tree_in here.now.laid.now) here.now.path (rvalue_tree rvalue.now)).fork
        (so_far (tree_in here.now.laid.now) to.old)) (so_far (tree_in here.now.laid.now) to.new) other) }
{
    let found = build_value(here, to, rvalue, Wanted::Branch)?;
    Ok(found.other)
}
