//! What compound forms calculate.
ghost use Rattle.std.specs.Prelude.{◌≡◌, pos};
ghost use Rattle.tm_laid.specs.Layouts.{laid_tree};
ghost use Rattle.concrete_steps.specs.NextAction.{compound_result, step_operator};
ghost use Rattle.concrete_values.specs.declared.values.Value.TheVariants.{Number};
ghost use Rattle.concrete_values.specs.Pointers.{dereferenced};
ghost use Rattle.task_interpreter.specs.Runnable.{IsRunnable};
ghost use Rattle.task_interpreter.specs.reading.Direct.{comparison, subscripted, arrow};

use cell_types::dereferenced;
use concrete_values::{Value, binary, compared, converted, moved, part, usable};
use tm_cint::{BinOp, Class, IntType};
use tm_laid::Laid;
use tm_typed::Step;

/// What `op=` stores where its cell holds `x`: the operator works in the type `of`.
pub(crate) fn compound_result(
    operator: BinOp,
    cell: IntType,
    of: IntType,
    x: Value,
    y: Value,
) -> Result<Value, Class>
    ensures { result ≡ compound_result operator cell of x y }
{
    match binary(operator, of, converted(cell, of, x), y) {
        Ok(value) => Ok(converted(of, cell, value)),
        Err(class) => Err(class),
    }
}

// The operator of `++`, or of `--`.
fn step_operator(step: Step) -> BinOp
    ensures { result ≡ step_operator step }
{
    if step.minus { BinOp::Sub } else { BinOp::Add }
}

/// What `++` or `--` stores where its cell holds `x`: the sum is taken in the type `of`.
pub(crate) fn unit_step(step: Step, cell: IntType, of: IntType, x: Value) -> Result<Value, Class>
    ensures { result ≡ compound_result (step_operator step) cell of x (Number (pos 1)) }
{
    compound_result(step_operator(step), cell, of, x, Value::Number(1))
}

/// `==` or `!=` of two pointers, which must be usable.
pub(crate) fn comparison(equal: bool, x: Value, y: Value) -> Result<Value, Class>
    ensures { result ≡ comparison equal x y }
{
    match usable(x) {
        Ok(x) => match usable(y) {
            Ok(y) => Ok(compared(equal, x, y)),
            Err(class) => Err(class),
        },
        Err(class) => Err(class),
    }
}

/// What `e[i]` designates, e a pointer to the type `target` of `cells` cells.
pub(crate) fn subscripted(
    laid: &Laid,
    path: u32,
    cells: u32,
    target: u32,
    pointer: Value,
    index: Value,
) -> Result<Value, Class>
    requires runnable { IsRunnable laid.now }
    ensures { result ≡ subscripted (laid_tree laid.now) path cells target pointer index }
{
    match moved(laid, false, cells, pointer, index) {
        Ok(pointer) => pointed(laid, path, target, pointer),
        Err(class) => Err(class),
    }
}

/// What a pointer to the type `target` designates.
pub(crate) fn pointed(laid: &Laid, path: u32, target: u32, pointer: Value) -> Result<Value, Class>
    requires runnable { IsRunnable laid.now }
    ensures { result ≡ dereferenced (laid_tree laid.now) path target pointer }
{
    dereferenced(laid, path, target, pointer)
}

/// What `e->m` designates, e a pointer to the structure type `target`, in which m begins at `cell`.
pub(crate) fn arrow(
    laid: &Laid,
    path: u32,
    target: u32,
    cell: u32,
    pointer: Value,
) -> Result<Value, Class>
    requires runnable { IsRunnable laid.now }
    ensures { result ≡ arrow (laid_tree laid.now) path target cell pointer }
{
    match pointed(laid, path, target, pointer) {
        Ok(address) => Ok(part(laid, cell, address)),
        Err(class) => Err(class),
    }
}
