//! What a declarator declares.
ghost use Rattle.std.specs.Prelude.{◌≡◌, IfOk, map, is_some};
ghost use Rattle.tm_trees.specs.DeclarationTrees.{value_tree, as_values, initialiser_tree, init_declarator_tree};
ghost use Rattle.tm_typed.specs.Declarations.{count_values, with_count, counted, counted_by, declared_by};
ghost use Rattle.c_typing_state.specs.Steps.{StepsTo};
ghost use Rattle.c_declarations.specs.reading.Declared.{with_value};

use c_specifiers::{declared, declared_name, declared_place};
use c_type_names::base;
use c_typing_state::State;
use std::alloc::Global;
use tm_lattice::NoMemory;
use tm_terms::{Fail, Name, Place};
use tm_trees::{InitDeclarator, Initialiser, Value};
use tm_typed::{CType, Qualified, Said, Shape};

/// A declared name, with its place and its type.
#[derive(Clone, Copy)]
pub(crate) struct Declared {
    pub name: Name,
    pub place: Place,
    pub shape: Shape,
}

// An array without a length has as many elements as the outermost braces have values.
#[tactic(auto, using(crate::proofs::Counts::count_of))]
fn with_count(
    state: &mut State,
    declared: Declared,
    initialiser: &Option<Initialiser>,
    values: &[Value],
) -> Result<Declared, NoMemory>
    ensures { IfOk result (λ d.
        with_count state.old (with_value declared initialiser.now)
        (count_values (as_values (map value_tree values.now)))
        ≡ (with_value d initialiser.now, state.new)) }
{
    match u32::try_from(values.len()) {
        Ok(length) => {
            let shape = declared.shape;
            let number = state.add_type(CType::Array {
                element: shape.of.number,
                length,
            })?;
            state.add_length(length)?;
            Ok(Declared {
                shape: Shape {
                    of: Qualified { number, ..shape.of },
                    is_open: false,
                    ..shape
                },
                ..declared
            })
        }
        Err(_) => Err(NoMemory),
    }
}

// What is declared, with the length that its value gives.
fn counted(
    state: &mut State,
    declared: Declared,
    initialiser: &Option<Initialiser>,
) -> Result<Declared, NoMemory>
    ensures { IfOk result (λ d.
        counted state.old (with_value declared initialiser.now) (initialiser_tree initialiser.now)
        ≡ (with_value d initialiser.now, state.new)) }
{
    match initialiser {
        None => Ok(declared),
        Some(value) => match &value.value {
            Value::Expression(_) => Ok(declared),
            Value::List { values, .. } => {
                if declared.shape.is_open {
                    with_count(state, declared, initialiser, values)
                } else {
                    Ok(declared)
                }
            }
        },
    }
}

/// What a declarator declares of the type that specifiers name.
#[tactic(auto, using(crate::proofs::Frames::passes, crate::proofs::Frames::goes_on))]
pub(crate) fn declared_by(
    alloc: Global,
    state: &mut State,
    said: Said,
    declarator: &InitDeclarator,
) -> Result<Declared, Fail>
    ensures { StepsTo (λ d. with_value d declarator.now.initialiser) state.new result
        (declared_by state.old said (init_declarator_tree declarator.now)) }
{
    match declared(alloc, state, base(said), &declarator.declarator) {
        Ok(shape) => {
            let it = Declared {
                name: declared_name(&declarator.declarator),
                place: declared_place(&declarator.declarator),
                shape,
            };
            let it = counted(state, it, &declarator.initialiser)?;
            Ok(it)
        }
        Err(fail) => Err(fail),
    }
}
