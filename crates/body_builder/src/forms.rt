//! What the forms of expressions end with, once their parts are built.
ghost use Rattle.std.specs.Prelude.{◌≡◌, IfOk, OnOk, pos};
ghost use Rattle.tm_typed.specs.TypedTrees.{rvalue_tree};
ghost use Rattle.lowering.specs.concrete_steps.Places.{gives_pointer};
ghost use Rattle.lowering.specs.Built.{temp_of};
ghost use Rattle.body_builder.specs.Fragments.{tree_in, so_far};
ghost use Rattle.body_builder.specs.reading.Expressions.{ends, usable_if, ends_fork, converted};
ghost use Rattle.body_builder.specs.Placing.{new_value, Gives, Finds};
ghost use Rattle.body_builder.specs.reading.Expressions.{operator_ends, binary_ends, pointers_ends, stored, changed};
ghost use Rattle.body_builder.specs.reading.Expressions.{compound_ends, unit_step_ends, moved_stored, temp_if};
ghost use Rattle.body_builder.specs.reading.Expressions.{compound_move_ends, pointer_step_ends, copied_if, truth_at};
ghost use Rattle.body_builder.specs.reading.Expressions.{copied_to_if, choice_ends, both_meet, either_meet};
ghost use Rattle.body_builder.specs.reading.Expressions.{conversion_ends, both_usable, loaded, ends_new, number_at, load_ends};
ghost use Rattle.body_builder.specs.reading.Expressions.{moved_ends};
ghost use Rattle.flow_graph.specs.declared.operations.Operation.TheVariants as Op;
ghost use Rattle.concrete_values.specs.declared.values.Value.TheVariants.{Number};

use crate::fragments::{Found, Fragment, Wanted};
use crate::here::Here;
use crate::lookups::{conversion, gives_pointer, is_comparison};
use concrete_values::{Value, truth_value};
use flow_graph::{Into, Operation, Test};
use tm_cint::{BinOp, IntType};
use tm_lattice::NoMemory;
use tm_terms::Place;
use tm_typed::{Rvalue, Scalar, is_pointer_scalar};

/// The temporary of a value that is used.
pub fn temp_of(temp: Option<u32>) -> u32
    ensures { result ≡ temp_of temp }
{
    match temp {
        Some(temp) => temp,
        None => 0,
    }
}

/// A temporary, where there is a value.
pub(crate) fn temp_if(has: bool, temp: u32) -> Option<u32>
    ensures { result ≡ temp_if has temp }
{
    if has { Some(temp) } else { None }
}

/// An operator, its conversions and where its value is stored.
#[derive(Clone, Copy)]
pub(crate) struct Change {
    pub operator: BinOp,
    pub cell: IntType,
    pub of: IntType,
    pub into: Into,
    pub place: Place,
}

/// How a pointer is moved, and where it is stored.
#[derive(Clone, Copy)]
pub(crate) struct Moved {
    pub minus: bool,
    pub cells: u32,
    pub class: u32,
    pub into: Into,
    pub place: Place,
}

impl Here<'_> {
    // A pointer that is compared is usable.
    fn usable_if(
        &self,
        to: &mut Fragment,
        pointer: bool,
        place: Place,
        temp: u32,
    ) -> Result<(), NoMemory>
        ensures { OnOk result (so_far (tree_in self.now.laid.now) to.new ≡ usable_if pointer place temp
            (so_far (tree_in self.now.laid.now) to.old)) }
    {
        if pointer {
            self.place(
                to,
                Operation::Usable {
                    pointer: temp,
                    place,
                },
            )
        } else {
            Ok(())
        }
    }

    /// A value is there, which is tested where a branch is wanted.
    #[tactic(auto, unfolding(crate::specs::reading::Expressions::ends))]
    pub(crate) fn ends(
        &self,
        to: &mut Fragment,
        wanted: Wanted,
        pointer: bool,
        place: Place,
        temp: Option<u32>,
    ) -> Result<Found, NoMemory>
        ensures { IfOk result (λ x. Finds (ends wanted pointer place temp (so_far (tree_in self.now.laid.now) to.old))
            (so_far (tree_in self.now.laid.now) to.new) x) }
    {
        match wanted {
            Wanted::Value => Ok(Found { temp, other: 0 }),
            Wanted::Bare => Ok(Found { temp, other: 0 }),
            Wanted::Branch => {
                let value = temp_of(temp);
                self.usable_if(to, pointer, place, value)?;
                self.tested(to, Test::Truth { holds: true, value })
            }
        }
    }

    /// A new value is there, which is tested where a branch is wanted.
    pub(crate) fn ends_new(
        &self,
        to: &mut Fragment,
        wanted: Wanted,
        pointer: bool,
        place: Place,
        op: Operation,
    ) -> Result<Found, NoMemory>
        ensures { IfOk result (λ x. Finds (ends_new wanted pointer place op (so_far (tree_in self.now.laid.now) to.old))
            (so_far (tree_in self.now.laid.now) to.new) x) }
    {
        let temp = self.new_value(to, op)?;
        self.ends(to, wanted, pointer, place, Some(temp))
    }

    /// A number is there, of which no branch is wanted.
    pub(crate) fn number(&self, to: &mut Fragment, number: i128) -> Result<Found, NoMemory>
        ensures { IfOk result (λ x. Finds (number_at number (so_far (tree_in self.now.laid.now) to.old))
            (so_far (tree_in self.now.laid.now) to.new) x) }
    {
        let op = Operation::Const {
            to: self.temps(to),
            value: Value::Number(number),
        };
        let temp = self.new_value(to, op)?;
        Ok(Found {
            temp: Some(temp),
            other: 0,
        })
    }

    /// A value is there, which is that of another expression. Whether this one is a pointer counts for a branch alone:
    /// it is asked only there, since the question goes down the expression.
    #[tactic(auto, unfolding(crate::specs::reading::Expressions::ends))]
    pub(crate) fn same_ends(
        &self,
        to: &mut Fragment,
        wanted: Wanted,
        other: &Rvalue,
        place: Place,
        temp: Option<u32>,
    ) -> Result<Found, NoMemory>
        ensures { IfOk result
            (λ x. Finds (ends wanted (gives_pointer (tree_in self.now.laid.now) (rvalue_tree other.now))
            place temp (so_far (tree_in self.now.laid.now) to.old)) (so_far (tree_in self.now.laid.now) to.new) x) }
    {
        match wanted {
            Wanted::Value => Ok(Found { temp, other: 0 }),
            Wanted::Bare => Ok(Found { temp, other: 0 }),
            Wanted::Branch => {
                let pointer = gives_pointer(self.laid, other);
                self.ends(to, Wanted::Branch, pointer, place, temp)
            }
        }
    }

    // 1 and 0 meet.
    #[tactic(auto, unfolding(crate::specs::Placing::new_value))]
    fn truth_at(&self, to: &mut Fragment, other: u32) -> Result<u32, NoMemory>
        ensures { IfOk result (λ t. (t ≡ (so_far (tree_in self.now.laid.now) to.old).temps)
            × (so_far (tree_in self.now.laid.now) to.new
            ≡ truth_at other (so_far (tree_in self.now.laid.now) to.old))) }
    {
        let value = truth_value(true);
        let op = Operation::Const {
            to: self.temps(to),
            value,
        };
        let temp = self.new_value(to, op)?;
        let one = self.node(to);
        self.goto(to, other);
        let value = truth_value(false);
        self.place(to, Operation::Const { to: temp, value })?;
        let zero = self.node(to);
        self.meet_two(to, one, zero)?;
        Ok(temp)
    }

    /// Control goes on at the present node, or at the other one.
    #[tactic(auto, unfolding(crate::specs::reading::Expressions::ends_fork))]
    pub(crate) fn ends_fork(
        &self,
        to: &mut Fragment,
        wanted: Wanted,
        other: u32,
    ) -> Result<Found, NoMemory>
        ensures { IfOk result (λ x. Finds (ends_fork wanted other (so_far (tree_in self.now.laid.now) to.old))
            (so_far (tree_in self.now.laid.now) to.new) x) }
    {
        match wanted {
            Wanted::Value => {
                let temp = self.truth_at(to, other)?;
                Ok(Found {
                    temp: Some(temp),
                    other: 0,
                })
            }
            Wanted::Bare => {
                let temp = self.truth_at(to, other)?;
                Ok(Found {
                    temp: Some(temp),
                    other: 0,
                })
            }
            Wanted::Branch => Ok(Found { temp: None, other }),
        }
    }

    /// A converted value, where that makes an operation.
    #[tactic(auto, unfolding(crate::specs::reading::Expressions::converted))]
    pub(crate) fn converted(
        &self,
        to: &mut Fragment,
        conversion: Option<(IntType, IntType)>,
        from: u32,
    ) -> Result<u32, NoMemory>
        ensures { IfOk result (λ t. Gives (converted conversion from (so_far (tree_in self.now.laid.now) to.old))
            (so_far (tree_in self.now.laid.now) to.new) t) }
    {
        match conversion {
            None => Ok(from),
            Some((was, of)) => {
                let op = Operation::Convert {
                    to: self.temps(to),
                    was,
                    of,
                    from,
                };
                self.new_value(to, op)
            }
        }
    }

    // An operator on converted operands.
    #[tactic(auto, unfolding(crate::specs::reading::Expressions::operator_ends))]
    fn operator_ends(
        &self,
        to: &mut Fragment,
        is_comparison: bool,
        wanted: Wanted,
        operator: BinOp,
        of: IntType,
        place: Place,
        left: u32,
        right: u32,
    ) -> Result<Found, NoMemory>
        ensures { IfOk result (λ x. Finds (operator_ends is_comparison wanted operator of place left right
            (so_far (tree_in self.now.laid.now) to.old)) (so_far (tree_in self.now.laid.now) to.new) x) }
    {
        match (is_comparison, wanted) {
            (true, Wanted::Branch) => self.tested(
                to,
                Test::Numbers {
                    operator,
                    of,
                    left,
                    right,
                },
            ),
            _ => {
                let op = Operation::Bin {
                    to: self.temps(to),
                    operator,
                    of,
                    left,
                    right,
                    place,
                };
                self.ends_new(to, wanted, false, place, op)
            }
        }
    }

    /// An operator on integers.
    #[tactic(auto, unfolding(crate::specs::reading::Expressions::binary_ends))]
    pub(crate) fn binary_ends(
        &self,
        to: &mut Fragment,
        wanted: Wanted,
        operator: BinOp,
        of: IntType,
        place: Place,
        left: (Option<(IntType, IntType)>, u32),
        right: (Option<(IntType, IntType)>, u32),
    ) -> Result<Found, NoMemory>
        ensures { IfOk result (λ x. Finds (binary_ends wanted operator of place left.0 left.1 right.0 right.1
            (so_far (tree_in self.now.laid.now) to.old)) (so_far (tree_in self.now.laid.now) to.new) x) }
    {
        let first = self.converted(to, left.0, left.1)?;
        let second = self.converted(to, right.0, right.1)?;
        let is_comparison = is_comparison(operator);
        self.operator_ends(
            to,
            is_comparison,
            wanted,
            operator,
            of,
            place,
            first,
            second,
        )
    }

    // Both pointers are usable.
    fn both_usable(
        &self,
        to: &mut Fragment,
        place: Place,
        left: u32,
        right: u32,
    ) -> Result<(), NoMemory>
        ensures { OnOk result (so_far (tree_in self.now.laid.now) to.new ≡ both_usable place left right
            (so_far (tree_in self.now.laid.now) to.old)) }
    {
        self.place(
            to,
            Operation::Usable {
                pointer: left,
                place,
            },
        )?;
        self.place(
            to,
            Operation::Usable {
                pointer: right,
                place,
            },
        )
    }

    /// A comparison of pointers.
    #[tactic(auto, unfolding(crate::specs::reading::Expressions::pointers_ends))]
    pub(crate) fn pointers_ends(
        &self,
        to: &mut Fragment,
        wanted: Wanted,
        equal: bool,
        place: Place,
        left: u32,
        right: u32,
    ) -> Result<Found, NoMemory>
        ensures { IfOk result (λ x. Finds (pointers_ends wanted equal place left right
            (so_far (tree_in self.now.laid.now) to.old)) (so_far (tree_in self.now.laid.now) to.new) x) }
    {
        self.both_usable(to, place, left, right)?;
        match wanted {
            Wanted::Branch => self.tested(to, Test::Pointers { equal, left, right }),
            _ => {
                let op = Operation::BinPointers {
                    to: self.temps(to),
                    equal,
                    left,
                    right,
                };
                self.ends_new(to, wanted, false, place, op)
            }
        }
    }

    /// A load from an address.
    pub(crate) fn loaded(
        &self,
        to: &mut Fragment,
        volatile: bool,
        scalar: Scalar,
        place: Place,
        address: u32,
    ) -> Result<u32, NoMemory>
        ensures { IfOk result (λ t. Gives (loaded volatile scalar place address
            (so_far (tree_in self.now.laid.now) to.old)) (so_far (tree_in self.now.laid.now) to.new) t) }
    {
        let temp = self.temps(to);
        if volatile {
            self.new_value(
                to,
                Operation::LoadAny {
                    to: temp,
                    address,
                    scalar,
                    place,
                },
            )
        } else {
            self.new_value(
                to,
                Operation::Load {
                    to: temp,
                    address,
                    scalar,
                    place,
                },
            )
        }
    }

    /// What an address holds is there.
    pub(crate) fn load_ends(
        &self,
        to: &mut Fragment,
        wanted: Wanted,
        volatile: bool,
        scalar: Scalar,
        place: Place,
        address: u32,
    ) -> Result<Found, NoMemory>
        ensures { IfOk result (λ x. Finds (load_ends wanted volatile scalar place address
            (so_far (tree_in self.now.laid.now) to.old)) (so_far (tree_in self.now.laid.now) to.new) x) }
    {
        let temp = self.loaded(to, volatile, scalar, place, address)?;
        let pointer = is_pointer_scalar(scalar);
        self.ends(to, wanted, pointer, place, Some(temp))
    }

    /// A value is stored at an address.
    #[tactic(auto, unfolding(crate::specs::reading::Expressions::stored))]
    pub(crate) fn stored(
        &self,
        to: &mut Fragment,
        wanted: Wanted,
        scalar: Scalar,
        into: Into,
        place: Place,
        address: u32,
        value: u32,
    ) -> Result<Found, NoMemory>
        ensures { IfOk result (λ x. Finds (stored wanted scalar into place address value
            (so_far (tree_in self.now.laid.now) to.old)) (so_far (tree_in self.now.laid.now) to.new) x) }
    {
        self.place(
            to,
            Operation::Store {
                address,
                value,
                scalar,
                into,
                place,
            },
        )?;
        let pointer = is_pointer_scalar(scalar);
        self.ends(to, wanted, pointer, place, Some(value))
    }

    // An operator on two operands, its conversion back, and the store.
    #[tactic(auto, unfolding(crate::specs::reading::Expressions::changed))]
    fn changed(
        &self,
        to: &mut Fragment,
        change: Change,
        left: (Option<(IntType, IntType)>, u32),
        right: (Option<(IntType, IntType)>, u32),
        back: Option<(IntType, IntType)>,
        address: u32,
    ) -> Result<u32, NoMemory>
        ensures { IfOk result (λ t. Gives (changed left.0 right.0 back change.operator change.cell change.of change.into
            change.place address left.1 right.1 (so_far (tree_in self.now.laid.now) to.old))
            (so_far (tree_in self.now.laid.now) to.new) t) }
    {
        let first = self.converted(to, left.0, left.1)?;
        let second = self.converted(to, right.0, right.1)?;
        let op = Operation::Bin {
            to: self.temps(to),
            operator: change.operator,
            of: change.of,
            left: first,
            right: second,
            place: change.place,
        };
        let sum = self.new_value(to, op)?;
        let value = self.converted(to, back, sum)?;
        self.place(
            to,
            Operation::Store {
                address,
                value,
                scalar: Scalar::Int(change.cell),
                into: change.into,
                place: change.place,
            },
        )?;
        Ok(value)
    }

    /// `op=` on an integer.
    #[tactic(auto, unfolding(crate::specs::reading::Expressions::compound_ends))]
    pub(crate) fn compound_ends(
        &self,
        to: &mut Fragment,
        wanted: Wanted,
        change: Change,
        address: u32,
        held: u32,
        right: (Option<(IntType, IntType)>, u32),
    ) -> Result<Found, NoMemory>
        ensures { IfOk result (λ x. Finds (compound_ends wanted change.operator change.cell change.of change.into
            change.place right.0 address held right.1 (so_far (tree_in self.now.laid.now) to.old))
            (so_far (tree_in self.now.laid.now) to.new) x) }
    {
        let left = (conversion(change.cell, change.of), held);
        let back = conversion(change.of, change.cell);
        let value = self.changed(to, change, left, right, back, address)?;
        self.ends(to, wanted, false, change.place, Some(value))
    }

    // The number 1.
    fn one(&self, to: &mut Fragment) -> Result<u32, NoMemory>
        ensures { IfOk result (λ t. Gives (new_value (Op.Const (so_far (tree_in self.now.laid.now) to.old).temps
            (Number (pos 1))) (so_far (tree_in self.now.laid.now) to.old))
            (so_far (tree_in self.now.laid.now) to.new) t) }
    {
        let op = Operation::Const {
            to: self.temps(to),
            value: Value::Number(1),
        };
        self.new_value(to, op)
    }

    /// `++` and `--` on an integer.
    #[tactic(auto, unfolding(crate::specs::reading::Expressions::unit_step_ends))]
    pub(crate) fn unit_step_ends(
        &self,
        to: &mut Fragment,
        wanted: Wanted,
        postfix: bool,
        change: Change,
        address: u32,
        held: u32,
    ) -> Result<Found, NoMemory>
        ensures { IfOk result (λ x. Finds (unit_step_ends wanted postfix change.operator change.cell change.of
            change.into change.place address held (so_far (tree_in self.now.laid.now) to.old))
            (so_far (tree_in self.now.laid.now) to.new) x) }
    {
        let one = self.one(to)?;
        let left = (conversion(change.cell, change.of), held);
        let right = (conversion(IntType::Int, change.of), one);
        let back = conversion(change.of, change.cell);
        let value = self.changed(to, change, left, right, back, address)?;
        let temp = if postfix { held } else { value };
        self.ends(to, wanted, false, change.place, Some(temp))
    }

    // A pointer is moved and stored.
    #[tactic(auto, unfolding(crate::specs::reading::Expressions::moved_stored))]
    fn moved_stored(
        &self,
        to: &mut Fragment,
        moved: Moved,
        address: u32,
        from: u32,
        by: u32,
    ) -> Result<u32, NoMemory>
        ensures { IfOk result (λ t. Gives (moved_stored moved.minus moved.cells moved.class moved.into moved.place
            address from by (so_far (tree_in self.now.laid.now) to.old))
            (so_far (tree_in self.now.laid.now) to.new) t) }
    {
        let op = Operation::Move {
            to: self.temps(to),
            from,
            cells: moved.cells,
            minus: moved.minus,
            by,
            place: moved.place,
        };
        let value = self.new_value(to, op)?;
        self.place(
            to,
            Operation::Store {
                address,
                value,
                scalar: Scalar::Pointer(moved.class),
                into: moved.into,
                place: moved.place,
            },
        )?;
        Ok(value)
    }

    /// A pointer plus or minus so many times its cells.
    pub(crate) fn moved_ends(
        &self,
        to: &mut Fragment,
        wanted: Wanted,
        minus: bool,
        cells: u32,
        place: Place,
        from: u32,
        by: u32,
    ) -> Result<Found, NoMemory>
        ensures { IfOk result (λ x. Finds (moved_ends wanted minus cells place from by
            (so_far (tree_in self.now.laid.now) to.old)) (so_far (tree_in self.now.laid.now) to.new) x) }
    {
        let op = Operation::Move {
            to: self.temps(to),
            from,
            cells,
            minus,
            by,
            place,
        };
        self.ends_new(to, wanted, true, place, op)
    }

    /// `+=` and `-=` on a pointer.
    #[tactic(auto, unfolding(crate::specs::reading::Expressions::compound_move_ends))]
    pub(crate) fn compound_move_ends(
        &self,
        to: &mut Fragment,
        wanted: Wanted,
        moved: Moved,
        address: u32,
        from: u32,
        by: u32,
    ) -> Result<Found, NoMemory>
        ensures { IfOk result (λ x. Finds (compound_move_ends wanted moved.minus moved.cells moved.class moved.into
            moved.place address from by (so_far (tree_in self.now.laid.now) to.old))
            (so_far (tree_in self.now.laid.now) to.new) x) }
    {
        let value = self.moved_stored(to, moved, address, from, by)?;
        self.ends(to, wanted, true, moved.place, Some(value))
    }

    /// `++` and `--` on a pointer.
    #[tactic(auto, unfolding(crate::specs::reading::Expressions::pointer_step_ends))]
    pub(crate) fn pointer_step_ends(
        &self,
        to: &mut Fragment,
        wanted: Wanted,
        postfix: bool,
        moved: Moved,
        address: u32,
        from: u32,
    ) -> Result<Found, NoMemory>
        ensures { IfOk result (λ x. Finds (pointer_step_ends wanted postfix moved.minus moved.cells moved.class
            moved.into moved.place address from (so_far (tree_in self.now.laid.now) to.old))
            (so_far (tree_in self.now.laid.now) to.new) x) }
    {
        let one = self.one(to)?;
        let value = self.moved_stored(to, moved, address, from, one)?;
        let temp = if postfix { from } else { value };
        self.ends(to, wanted, true, moved.place, Some(temp))
    }

    /// A value is copied into a new temporary, where there is one.
    #[tactic(auto, unfolding(crate::specs::reading::Expressions::copied_if))]
    pub(crate) fn copied_if(&self, to: &mut Fragment, has: bool, from: u32) -> Result<(), NoMemory>
        ensures { OnOk result (so_far (tree_in self.now.laid.now) to.new ≡ copied_if has from
            (so_far (tree_in self.now.laid.now) to.old)) }
    {
        if has {
            let op = Operation::Copy {
                to: self.temps(to),
                from,
            };
            let _temp = self.new_value(to, op)?;
            Ok(())
        } else {
            Ok(())
        }
    }

    // A value is copied into a temporary, where there is one.
    fn copied_to_if(
        &self,
        to: &mut Fragment,
        has: bool,
        temp: u32,
        from: u32,
    ) -> Result<(), NoMemory>
        ensures { OnOk result (so_far (tree_in self.now.laid.now) to.new ≡ copied_to_if has temp from
            (so_far (tree_in self.now.laid.now) to.old)) }
    {
        if has {
            self.place(to, Operation::Copy { to: temp, from })
        } else {
            Ok(())
        }
    }

    /// Both parts of a choice meet, of which the first ended at a node.
    #[tactic(auto, unfolding(crate::specs::reading::Expressions::choice_ends))]
    pub(crate) fn choice_ends(
        &self,
        to: &mut Fragment,
        wanted: Wanted,
        has: bool,
        pointer: bool,
        place: Place,
        node: u32,
        temp: u32,
        from: u32,
    ) -> Result<Found, NoMemory>
        ensures { IfOk result (λ x. Finds (choice_ends wanted has pointer place node temp from
            (so_far (tree_in self.now.laid.now) to.old)) (so_far (tree_in self.now.laid.now) to.new) x) }
    {
        self.copied_to_if(to, has, temp, from)?;
        let other = self.node(to);
        self.meet_two(to, node, other)?;
        self.ends(to, wanted, pointer, place, temp_if(has, temp))
    }

    /// The ways on which `&&` does not hold meet.
    #[tactic(auto, unfolding(crate::specs::reading::Expressions::both_meet))]
    pub(crate) fn both_meet(
        &self,
        to: &mut Fragment,
        wanted: Wanted,
        first: u32,
        second: u32,
    ) -> Result<Found, NoMemory>
        ensures { IfOk result (λ x. Finds (both_meet wanted first second (so_far (tree_in self.now.laid.now) to.old))
            (so_far (tree_in self.now.laid.now) to.new) x) }
    {
        let node = self.node(to);
        let other = self.nodes(to);
        self.meet_two(to, first, second)?;
        self.goto(to, node);
        self.ends_fork(to, wanted, other)
    }

    /// The ways on which `||` holds meet.
    #[tactic(auto, unfolding(crate::specs::reading::Expressions::either_meet))]
    pub(crate) fn either_meet(
        &self,
        to: &mut Fragment,
        wanted: Wanted,
        first: u32,
        second: u32,
        other: u32,
    ) -> Result<Found, NoMemory>
        ensures { IfOk result (λ x. Finds (either_meet wanted first second other
            (so_far (tree_in self.now.laid.now) to.old)) (so_far (tree_in self.now.laid.now) to.new) x) }
    {
        self.meet_two(to, first, second)?;
        self.ends_fork(to, wanted, other)
    }

    /// A conversion, unless it is left to whoever wants the bare value.
    #[tactic(auto, unfolding(crate::specs::reading::Expressions::conversion_ends, crate::specs::reading::Expressions::ends))]
    pub(crate) fn conversion_ends(
        &self,
        to: &mut Fragment,
        wanted: Wanted,
        is_same: bool,
        place: Place,
        conversion: Option<(IntType, IntType)>,
        temp: Option<u32>,
    ) -> Result<Found, NoMemory>
        ensures { IfOk result (λ x. Finds (conversion_ends wanted is_same place conversion temp
            (so_far (tree_in self.now.laid.now) to.old)) (so_far (tree_in self.now.laid.now) to.new) x) }
    {
        match (wanted, is_same) {
            (Wanted::Bare, true) => Ok(Found { temp, other: 0 }),
            _ => {
                let value = self.converted(to, conversion, temp_of(temp))?;
                self.ends(to, wanted, false, place, Some(value))
            }
        }
    }
}
