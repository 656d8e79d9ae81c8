//! Expressions in a state.
ghost use Rattle.std.specs.Prelude.{◌≡◌, OnOk};
ghost use Rattle.tm_terms.specs.ExprTrees.{tree_of};
ghost use Rattle.tm_typed.specs.TypedTrees.{operand_tree};
ghost use Rattle.tm_typed.specs.Evaluation.{typed_in, measured, folded_value, value_of_fold};
ghost use Rattle.c_typing_state.specs.Steps.{StepsTo};

use crate::sizes::push_sizes;
use crate::states::State;
use c_expr_typing::typed_expr_at;
use c_expr_uses::{push_constants, push_uses};
use c_type_names::prepare;
use std::alloc::Global;
use tm_terms::{Expr, Fail};
use tm_typed::{Fold, Operand, Sort};

impl State {
    /// An expression that is evaluated: a statement's, an argument's, an initialiser's.
    pub fn typed_in(&mut self, alloc: Global, expr: &Expr) -> Result<Operand, Fail>
        ensures { StepsTo operand_tree self.new result (typed_in self.old (tree_of expr.now)) }
    {
        prepare(alloc, &mut self.scope, expr)?;
        match typed_expr_at(alloc, expr, &self.scope, &mut self.site) {
            Ok(operand) => match push_uses(&self.scope, expr, &mut self.uses) {
                Ok(()) => match push_constants(&operand, &mut self.constants) {
                    Ok(()) => {
                        push_sizes(alloc, &self.scope, expr, &mut self.sizes)?;
                        Ok(operand)
                    }
                    Err(_) => Err(Fail::NoMemory),
                },
                Err(_) => Err(Fail::NoMemory),
            },
            Err(fail) => Err(fail),
        }
    }

    /// An expression for a number that the text fixes: a length, an enumerator, a priority.
    pub fn measured(&mut self, alloc: Global, expr: &Expr) -> Result<Operand, Fail>
        ensures { StepsTo operand_tree self.new result (measured self.old (tree_of expr.now)) }
    {
        prepare(alloc, &mut self.scope, expr)?;
        let mut site = self.site;
        match typed_expr_at(alloc, expr, &self.scope, &mut site) {
            Ok(operand) => {
                push_sizes(alloc, &self.scope, expr, &mut self.sizes)?;
                Ok(operand)
            }
            Err(fail) => Err(fail),
        }
    }
}

/// The value of a folded expression.
pub fn folded_value(operand: &Operand) -> Option<i128>
    ensures { result ≡ folded_value (operand_tree operand.now) }
{
    match operand {
        Operand::Lvalue { .. } => None,
        Operand::Value(valued) => match valued.sort {
            Sort::Integer(_, Fold::Value(value)) => Some(value),
            _ => None,
        },
    }
}
