//! Expressions: their values, and the addresses of lvalues.
ghost use Rattle.std.specs.Prelude.{◌≡◌, true};
ghost use Rattle.tm_typed.specs.TypedTrees.{rvalue_tree, lvalue_tree, lvalue_place};
ghost use Rattle.tm_laid.specs.Layouts.{laid_tree};
ghost use Rattle.task_interpreter.specs.Runnable.{IsRunnable};
ghost use Rattle.task_interpreter.specs.reading.Direct.{truth_ran, loaded, value_ran, branch_ran, address_ran};
ghost use Rattle.task_interpreter.specs.reading.Direct.{stored, changed, stepped};
ghost use Rattle.task_interpreter.specs.reading.Lists.{is_operation, is_choice, is_change};
ghost use Rattle.task_interpreter.specs.reading.Seats.{seat_of};

use crate::answers::{Gave, Held, calculated, last};
use crate::forms::{form_of, tried};
use crate::interpreter::Here;
use crate::objects::object_of;
use crate::operations::{arrow, comparison, compound_result, pointed, subscripted, unit_step};
use concrete_values::{
    Next, Pointer, Value, base, binary, converted, element, is_true, load_at, moved, nothing, part,
    store_at, truth_value, unary,
};
use tm_cint::Class;
use tm_terms::Place;
use tm_typed::{Lvalue, Rvalue, Scalar, Step};

impl Here<'_> {
    // The value of an expression.
    #[cycle(next)]
    #[tactic(auto, using(crate::proofs::Steps::run_ok, crate::proofs::Steps::run_err, crate::proofs::Calls::call_tree, crate::proofs::Blocks::call_below))]
    pub(crate) fn value(self, e: &Rvalue, at: usize) -> Result<Gave, Next>
        requires runnable { IsRunnable self.laid.now }
        ensures { result ≡ value_ran (seat_of self.entry) (rvalue_tree e.now) at }
    {
        match e {
            Rvalue::Constant { value, .. } | Rvalue::Folded { value, .. } => Ok(Gave {
                value: Value::Number(*value),
                at,
            }),
            Rvalue::Null { .. } => Ok(Gave {
                value: Value::Pointer(Pointer::Null),
                at,
            }),
            Rvalue::Load {
                scalar,
                volatile,
                lvalue,
            } => {
                let address = given!(self.address(lvalue, at));
                self.act(
                    load_at(address.value, *scalar, *volatile, lvalue.place()),
                    address.at,
                )
            }
            Rvalue::Address { lvalue, .. } => self.address(lvalue, at),
            Rvalue::Structure { lvalue } => {
                let address = given!(self.address(lvalue, at));
                Ok(Gave {
                    value: nothing(),
                    at: address.at,
                })
            }
            Rvalue::Same { value, .. } => self.value(value, at),
            Rvalue::Call {
                site,
                arguments,
                place,
                ..
            } => self.called(*site, arguments, *place, at),
            Rvalue::Input { low, high, .. } => self.act(
                Next::Chosen {
                    low: *low,
                    high: *high,
                },
                at,
            ),
            Rvalue::Probe { mutex, place } => self.act(
                Next::Probe {
                    mutex: *mutex,
                    place: *place,
                },
                at,
            ),
            Rvalue::Unary { .. }
            | Rvalue::Binary { .. }
            | Rvalue::Pointers { .. }
            | Rvalue::Move { .. }
            | Rvalue::Convert { .. }
            | Rvalue::Discard { .. } => self.operated(e, at),
            Rvalue::Not { .. }
            | Rvalue::And { .. }
            | Rvalue::Or { .. }
            | Rvalue::Conditional { .. }
            | Rvalue::Comma { .. } => self.chosen(e, at),
            Rvalue::Assign { .. }
            | Rvalue::Compound { .. }
            | Rvalue::CompoundMove { .. }
            | Rvalue::Step { .. }
            | Rvalue::StepMove { .. } => self.assigned(e, at),
        }
    }

    // The value of an operation on operands that are all evaluated.
    #[cycle(next)]
    #[tactic(auto, using(crate::proofs::Steps::run_ok, crate::proofs::Steps::run_err))]
    fn operated(self, e: &Rvalue, at: usize) -> Result<Gave, Next>
        requires runnable { IsRunnable self.laid.now }
        requires family { is_operation (rvalue_tree e.now) ≡ true }
        ensures { result ≡ value_ran (seat_of self.entry) (rvalue_tree e.now) at }
    {
        match e {
            Rvalue::Unary {
                operator,
                of,
                value,
                place,
            } => {
                let x = given!(self.value(value, at));
                calculated(self.answers, unary(*operator, *of, x.value), *place, x.at)
            }
            Rvalue::Binary {
                operator,
                of,
                left,
                right,
                place,
            } => {
                let x = given!(self.value(left, at));
                let y = given!(self.value(right, x.at));
                let found = binary(*operator, *of, x.value, y.value);
                calculated(self.answers, found, *place, y.at)
            }
            Rvalue::Pointers {
                equal,
                left,
                right,
                place,
            } => {
                let x = given!(self.value(left, at));
                let y = given!(self.value(right, x.at));
                let found = comparison(*equal, x.value, y.value);
                calculated(self.answers, found, *place, y.at)
            }
            Rvalue::Move {
                minus,
                cells,
                index_first,
                pointer,
                index,
                place,
            } => {
                if *index_first {
                    let y = given!(self.value(index, at));
                    let x = given!(self.value(pointer, y.at));
                    let found = moved(self.laid, *minus, *cells, x.value, y.value);
                    calculated(self.answers, found, *place, x.at)
                } else {
                    let x = given!(self.value(pointer, at));
                    let y = given!(self.value(index, x.at));
                    let found = moved(self.laid, *minus, *cells, x.value, y.value);
                    calculated(self.answers, found, *place, y.at)
                }
            }
            Rvalue::Convert {
                from,
                to,
                value,
                ..
            } => {
                let x = given!(self.value(value, at));
                Ok(Gave {
                    value: converted(*from, *to, x.value),
                    at: x.at,
                })
            }
            Rvalue::Discard { value, .. } => {
                let x = given!(self.value(value, at));
                Ok(Gave {
                    value: nothing(),
                    at: x.at,
                })
            }
            _ => unreachable!(),
        }
    }

    // The truth of a condition.
    #[cycle(next)]
    #[tactic(auto, using(crate::proofs::Steps::run_ok, crate::proofs::Steps::run_err), unfolding(crate::specs::reading::Direct::truth_ran))]
    fn truth(self, e: &Rvalue, at: usize) -> Result<Gave, Next>
        requires runnable { IsRunnable self.laid.now }
        ensures { result ≡ truth_ran (branch_ran (seat_of self.entry) (rvalue_tree e.now) at) }
    {
        let x = given!(self.condition(e, at));
        Ok(Gave {
            value: truth_value(is_true(x.value)),
            at: x.at,
        })
    }

    // The value of an expression that evaluates only some of its operands, or of one behind another.
    #[cycle(next)]
    #[tactic(auto, using(crate::proofs::Steps::run_ok, crate::proofs::Steps::run_err, crate::proofs::Steps::if_true, crate::proofs::Steps::if_false))]
    fn chosen(self, e: &Rvalue, at: usize) -> Result<Gave, Next>
        requires runnable { IsRunnable self.laid.now }
        requires family { is_choice (rvalue_tree e.now) ≡ true }
        ensures { result ≡ value_ran (seat_of self.entry) (rvalue_tree e.now) at }
    {
        match e {
            Rvalue::Not { value, .. } => {
                let x = given!(self.condition(value, at));
                Ok(Gave {
                    value: truth_value(!is_true(x.value)),
                    at: x.at,
                })
            }
            Rvalue::And { left, right, .. } => {
                let x = given!(self.condition(left, at));
                if is_true(x.value) {
                    self.truth(right, x.at)
                } else {
                    Ok(Gave {
                        value: truth_value(false),
                        at: x.at,
                    })
                }
            }
            Rvalue::Or { left, right, .. } => {
                let x = given!(self.condition(left, at));
                if is_true(x.value) {
                    Ok(Gave {
                        value: truth_value(true),
                        at: x.at,
                    })
                } else {
                    self.truth(right, x.at)
                }
            }
            Rvalue::Conditional {
                condition,
                first,
                second,
                ..
            } => {
                let x = given!(self.condition(condition, at));
                if is_true(x.value) {
                    self.value(first, x.at)
                } else {
                    self.value(second, x.at)
                }
            }
            Rvalue::Comma { left, right, .. } => {
                let x = given!(self.value(left, at));
                self.value(right, x.at)
            }
            _ => unreachable!(),
        }
    }

    // What an lvalue holds, with its address.
    #[cycle(next)]
    #[tactic(auto, using(crate::proofs::Steps::loaded_ok, crate::proofs::Steps::loaded_no_value, crate::proofs::Steps::loaded_no_address))]
    fn loaded(
        self,
        target: &Lvalue,
        scalar: Scalar,
        volatile: bool,
        at: usize,
    ) -> Result<Held, Next>
        requires runnable { IsRunnable self.laid.now }
        ensures { result ≡ loaded (laid_tree self.entry.laid.now) self.entry.answers.now
            (address_ran (seat_of self.entry) (lvalue_tree target.now) at) scalar volatile
            (lvalue_place (lvalue_tree target.now)) }
    {
        let address = given!(self.address(target, at));
        let load = load_at(address.value, scalar, volatile, target.place());
        let held = given!(self.act(load, address.at));
        Ok(Held {
            address: address.value,
            value: held.value,
            at: held.at,
        })
    }

    // A store, whose value is what is stored.
    #[tactic(auto, using(crate::proofs::Steps::run_ok, crate::proofs::Steps::run_err), unfolding(crate::specs::reading::Direct::stored))]
    fn stored(
        self,
        address: Value,
        scalar: Scalar,
        value: Value,
        place: Place,
        at: usize,
    ) -> Result<Gave, Next>
        ensures { result ≡ stored (laid_tree self.entry.laid.now) self.entry.answers.now address scalar value place at }
    {
        let done = given!(self.act(store_at(address, scalar, value, place), at));
        Ok(Gave { value, at: done.at })
    }

    // The store of what an operator gives, or its error.
    #[tactic(auto, unfolding(crate::specs::reading::Direct::changed))]
    fn changed(
        self,
        address: Value,
        scalar: Scalar,
        found: Result<Value, Class>,
        place: Place,
        at: usize,
    ) -> Result<Gave, Next>
        ensures { result ≡ changed (laid_tree self.entry.laid.now) self.entry.answers.now address scalar found place at }
    {
        match found {
            Ok(value) => self.stored(address, scalar, value, place, at),
            Err(class) => Err(last(self.answers, Next::Fault { class, place }, at)),
        }
    }

    // The store of `++` or `--`, and its value: before its operand the new one, behind it the old one.
    #[tactic(auto, using(crate::proofs::Steps::run_ok, crate::proofs::Steps::run_err), unfolding(crate::specs::reading::Direct::stepped))]
    fn stepped(
        self,
        step: Step,
        held: Held,
        scalar: Scalar,
        found: Result<Value, Class>,
        place: Place,
    ) -> Result<Gave, Next>
        ensures { result ≡ stepped (laid_tree self.entry.laid.now) self.entry.answers.now step held scalar found place }
    {
        let new = given!(self.changed(held.address, scalar, found, place, held.at));
        let value = if step.postfix { held.value } else { new.value };
        Ok(Gave { value, at: new.at })
    }

    // The value of an expression that stores.
    #[cycle(next)]
    #[tactic(auto, using(crate::proofs::Steps::run_ok, crate::proofs::Steps::run_err, crate::proofs::Steps::held_ok, crate::proofs::Steps::held_err))]
    fn assigned(self, e: &Rvalue, at: usize) -> Result<Gave, Next>
        requires runnable { IsRunnable self.laid.now }
        requires family { is_change (rvalue_tree e.now) ≡ true }
        ensures { result ≡ value_ran (seat_of self.entry) (rvalue_tree e.now) at }
    {
        match e {
            Rvalue::Assign {
                scalar,
                target,
                value,
                place,
            } => {
                let a = given!(self.address(target, at));
                let v = given!(self.value(value, a.at));
                self.stored(a.value, *scalar, v.value, *place, v.at)
            }
            Rvalue::Compound {
                operator,
                cell,
                of,
                volatile,
                target,
                value,
                place,
            } => {
                let held = given!(self.loaded(target, Scalar::Int(*cell), *volatile, at));
                let y = given!(self.value(value, held.at));
                let found = compound_result(*operator, *cell, *of, held.value, y.value);
                let scalar = Scalar::Int(*cell);
                self.changed(held.address, scalar, found, *place, y.at)
            }
            Rvalue::CompoundMove {
                minus,
                cells,
                class,
                target,
                value,
                place,
            } => {
                let held = given!(self.loaded(target, Scalar::Pointer(*class), false, at));
                let y = given!(self.value(value, held.at));
                let found = moved(self.laid, *minus, *cells, held.value, y.value);
                let scalar = Scalar::Pointer(*class);
                self.changed(held.address, scalar, found, *place, y.at)
            }
            Rvalue::Step {
                step,
                cell,
                of,
                volatile,
                target,
                place,
            } => {
                let held = given!(self.loaded(target, Scalar::Int(*cell), *volatile, at));
                let found = unit_step(*step, *cell, *of, held.value);
                self.stepped(*step, held, Scalar::Int(*cell), found, *place)
            }
            Rvalue::StepMove {
                step,
                cells,
                class,
                target,
                place,
            } => {
                let held = given!(self.loaded(target, Scalar::Pointer(*class), false, at));
                let found = moved(self.laid, step.minus, *cells, held.value, Value::Number(1));
                self.stepped(*step, held, Scalar::Pointer(*class), found, *place)
            }
            _ => unreachable!(),
        }
    }

    // The value of a condition, which goes by its form.
    #[cycle(next)]
    #[tactic(auto, using(crate::proofs::Conditions::folded_branch, crate::proofs::Conditions::branch_ok, crate::proofs::Conditions::branch_err, crate::proofs::Conditions::form_below))]
    pub(crate) fn condition(self, e: &Rvalue, at: usize) -> Result<Gave, Next>
        requires runnable { IsRunnable self.laid.now }
        ensures { result ≡ branch_ran (seat_of self.entry) (rvalue_tree e.now) at }
    {
        match form_of(e) {
            Some(form) => self.condition(form, at),
            None => {
                let x = given!(self.value(e, at));
                tried(self.laid, self.answers, e, x.value, x.at)
            }
        }
    }

    // The address of an lvalue.
    #[cycle(next)]
    #[tactic(auto, using(crate::proofs::Steps::run_ok, crate::proofs::Steps::run_err))]
    fn address(self, lvalue: &Lvalue, at: usize) -> Result<Gave, Next>
        requires runnable { IsRunnable self.laid.now }
        ensures { result ≡ address_ran (seat_of self.entry) (lvalue_tree lvalue.now) at }
    {
        match lvalue {
            Lvalue::Object { object, .. } => Ok(Gave {
                value: base(self.laid, object_of(self.laid, self.path, *object)),
                at,
            }),
            Lvalue::Element {
                array,
                index,
                length,
                cells,
                place,
            } => {
                let a = given!(self.address(array, at));
                let y = given!(self.value(index, a.at));
                let found = element(self.laid, *length, *cells, a.value, y.value);
                calculated(self.answers, found, *place, y.at)
            }
            Lvalue::Subscript {
                pointer,
                index,
                cells,
                target,
                place,
            } => {
                let x = given!(self.value(pointer, at));
                let y = given!(self.value(index, x.at));
                let found = subscripted(self.laid, self.path, *cells, *target, x.value, y.value);
                calculated(self.answers, found, *place, y.at)
            }
            Lvalue::Pointed {
                pointer,
                target,
                place,
            } => {
                let x = given!(self.value(pointer, at));
                let found = pointed(self.laid, self.path, *target, x.value);
                calculated(self.answers, found, *place, x.at)
            }
            Lvalue::Arrow {
                pointer,
                target,
                cell,
                place,
            } => {
                let x = given!(self.value(pointer, at));
                let found = arrow(self.laid, self.path, *target, *cell, x.value);
                calculated(self.answers, found, *place, x.at)
            }
            Lvalue::Member {
                structure,
                cell,
                ..
            } => {
                let a = given!(self.address(structure, at));
                Ok(Gave {
                    value: part(self.laid, *cell, a.value),
                    at: a.at,
                })
            }
        }
    }
}
