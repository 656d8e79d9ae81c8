//! Calls: arguments are stored, and a mark stands for the body.
ghost use Rattle.std.specs.Prelude.{◌≡◌, ◌+◌, IfOk, OnOk, option_map};
ghost use Rattle.flow_graph.specs.declared.operations.Operation.TheVariants as Op;
ghost use Rattle.lowering.specs.Built.{stores_piece, path_piece, function_end};
ghost use Rattle.body_builder.specs.Fragments.{tree_in, so_far, IsSize, IsPart, with_call, calls_on};
ghost use Rattle.body_builder.specs.reading.Expressions.{call_ends, argument_stored, pointed_element, pointed_part};
ghost use Rattle.body_builder.specs.Placing.{new_value, Gives, Finds};

use crate::forms::{temp_if, temp_of};
use crate::fragments::{Call, Found, Fragment, Item, Size, Wanted};
use crate::here::Here;
use crate::lookups::{call_has_value, callee, object_of, scalar_at};
use crate::placing::more;
use flow_graph::{Into, Operation};
use tm_lattice::NoMemory;
use tm_terms::Place;
use tm_typed::ObjectNumber;

impl Here<'_> {
    /// The pointer that is followed to a value of a type.
    pub(crate) fn followed(
        &self,
        to: &mut Fragment,
        from: u32,
        target: u32,
        place: Place,
    ) -> Result<u32, NoMemory>
        ensures { IfOk result (λ t. Gives (new_value (Op.Deref (so_far (tree_in self.now.laid.now) to.old).temps from
            target self.now.path place) (so_far (tree_in self.now.laid.now) to.old))
            (so_far (tree_in self.now.laid.now) to.new) t) }
    {
        let op = Operation::Deref {
            to: self.temps(to),
            from,
            target,
            path: self.path,
            place,
        };
        self.new_value(to, op)
    }

    /// The element behind a pointer, so many times the cells of its type away.
    pub(crate) fn pointed_element(
        &self,
        to: &mut Fragment,
        from: u32,
        cells: u32,
        by: u32,
        target: u32,
        place: Place,
    ) -> Result<u32, NoMemory>
        ensures { IfOk result (λ t. Gives (pointed_element self.now.path from cells by target place
            (so_far (tree_in self.now.laid.now) to.old)) (so_far (tree_in self.now.laid.now) to.new) t) }
    {
        let op = Operation::Move {
            to: self.temps(to),
            from,
            cells,
            minus: false,
            by,
            place,
        };
        let moved = self.new_value(to, op)?;
        self.followed(to, moved, target, place)
    }

    /// The member at a cell of the structure behind a pointer.
    pub(crate) fn pointed_part(
        &self,
        to: &mut Fragment,
        from: u32,
        target: u32,
        cell: u32,
        place: Place,
    ) -> Result<u32, NoMemory>
        ensures { IfOk result (λ t. Gives (pointed_part self.now.path from target cell place
            (so_far (tree_in self.now.laid.now) to.old)) (so_far (tree_in self.now.laid.now) to.new) t) }
    {
        let followed = self.followed(to, from, target, place)?;
        let op = Operation::Offset {
            to: self.temps(to),
            from: followed,
            cells: cell,
        };
        self.new_value(to, op)
    }

    /// The address of an object.
    pub fn base(&self, to: &mut Fragment, object: u32) -> Result<u32, NoMemory>
        ensures { IfOk result (λ t. Gives (new_value (Op.Base (so_far (tree_in self.now.laid.now) to.old).temps object)
            (so_far (tree_in self.now.laid.now) to.old)) (so_far (tree_in self.now.laid.now) to.new) t) }
    {
        let op = Operation::Base {
            to: self.temps(to),
            object,
        };
        self.new_value(to, op)
    }

    // An argument is stored to a parameter.
    #[tactic(auto, unfolding(crate::specs::reading::Expressions::argument_stored))]
    fn store_argument(
        &self,
        to: &mut Fragment,
        object: u32,
        value: u32,
        place: Place,
    ) -> Result<(), NoMemory>
        ensures { OnOk result (so_far (tree_in self.now.laid.now) to.new ≡ argument_stored (tree_in self.now.laid.now)
            object value place (so_far (tree_in self.now.laid.now) to.old)) }
    {
        let address = self.base(to, object)?;
        self.place(
            to,
            Operation::Store {
                address,
                value,
                scalar: scalar_at(self.laid, object, 0)?,
                into: Into::Object(object),
                place,
            },
        )
    }

    // The arguments are stored to the parameters of a path, in order.
    #[tactic(auto, using(crate::proofs::Joining::stores_step))]
    fn stores(
        &self,
        to: &mut Fragment,
        path: u32,
        arguments: &[u32],
        place: Place,
    ) -> Result<(), NoMemory>
        ensures { OnOk result (so_far (tree_in self.now.laid.now) to.new ≡ stores_piece (tree_in self.now.laid.now)
            path 0 arguments.now place (so_far (tree_in self.now.laid.now) to.old)) }
    {
        let mut number = 0;
        for argument in arguments {
            let object = object_of(self.laid, path, ObjectNumber::Local(number))?;
            self.store_argument(to, object, *argument, place)?;
            number = more(number, 1)?;
        }
        Ok(())
    }

    // The size of the body of a path.
    fn size_of(&self, path: u32) -> Result<Size, NoMemory>
        ensures is_size { IfOk result (λ s. IsSize (tree_in self.now.laid.now) path s) }
        ensures depth { IfOk result (λ s. s.depth ≡ self.now.depth) }
    {
        match self.sizes.get(path as usize) {
            Some(Some(size)) => {
                if size.depth == self.depth {
                    Ok(*size)
                } else {
                    Err(NoMemory)
                }
            }
            Some(None) | None => Err(NoMemory),
        }
    }

    // A call behind the other items.
    #[tactic(auto, using(crate::proofs::Items::call_behind), unfolding(crate::specs::Fragments::so_far, crate::specs::Fragments::with_call))]
    fn mark(
        &self,
        to: &mut Fragment,
        call: Call,
        node: u32,
        nodes: u32,
        temps: u32,
    ) -> Result<(), NoMemory>
        ensures { OnOk result (so_far (tree_in self.now.laid.now) to.new ≡ with_call (tree_in self.now.laid.now) call
            node nodes temps (so_far (tree_in self.now.laid.now) to.old)) }
    {
        to.items.push(Item::Call(call))?;
        to.node = node;
        to.nodes = nodes;
        to.temps = temps;
        Ok(())
    }

    // The body of a path, of this size.
    #[tactic(auto, using(crate::proofs::Joining::joined))]
    fn called(&self, to: &mut Fragment, path: u32, size: Size) -> Result<Option<u32>, NoMemory>
        requires is_size { IsSize (tree_in self.now.laid.now) path size }
        ensures { IfOk result (λ t. IsPart (path_piece function_end (tree_in self.now.laid.now) size.depth path
            (so_far (tree_in self.now.laid.now) to.old)) (so_far (tree_in self.now.laid.now) to.new) t) }
    {
        let call = Call {
            path,
            depth: size.depth,
            node: self.node(to),
            nodes: self.nodes(to),
            temps: self.temps(to),
        };
        let nodes = more(call.nodes, size.nodes)?;
        let temps = more(call.temps, size.temps)?;
        let result = behind(call.temps, size.result)?;
        let node = less(nodes)?;
        self.mark(to, call, node, nodes, temps)?;
        Ok(result)
    }

    // The body of a path.
    fn body(&self, to: &mut Fragment, path: u32) -> Result<Option<u32>, NoMemory>
        ensures { IfOk result (λ t. IsPart (path_piece function_end (tree_in self.now.laid.now) self.now.depth path
            (so_far (tree_in self.now.laid.now) to.old)) (so_far (tree_in self.now.laid.now) to.new) t) }
    {
        let size = self.size_of(path)?;
        self.called(to, path, size)
    }

    // A call with the values of its arguments.
    #[tactic(auto, unfolding(crate::specs::Fragments::calls_on))]
    fn call(
        &self,
        to: &mut Fragment,
        site: u32,
        arguments: &[u32],
        place: Place,
    ) -> Result<Option<u32>, NoMemory>
        ensures { IfOk result (λ t. IsPart (calls_on (tree_in self.now.laid.now) self.now.depth self.now.path site
            arguments.now place (so_far (tree_in self.now.laid.now) to.old))
            (so_far (tree_in self.now.laid.now) to.new) t) }
    {
        let path = callee(self.laid, self.path, site);
        self.stores(to, path, arguments, place)?;
        self.body(to, path)
    }

    /// A call, for its value or as a branch.
    #[tactic(auto, unfolding(crate::specs::reading::Expressions::call_ends))]
    pub(crate) fn call_ends(
        &self,
        to: &mut Fragment,
        wanted: Wanted,
        pointer: bool,
        site: u32,
        place: Place,
        arguments: &[u32],
    ) -> Result<Found, NoMemory>
        ensures { IfOk result (λ x. Finds (call_ends (tree_in self.now.laid.now) self.now.depth self.now.path wanted
            pointer site place arguments.now (so_far (tree_in self.now.laid.now) to.old))
            (so_far (tree_in self.now.laid.now) to.new) x) }
    {
        let has = call_has_value(self.laid, self.path, site);
        let temp = self.call(to, site, arguments, place)?;
        self.ends(to, wanted, pointer, place, temp_if(has, temp_of(temp)))
    }
}

// One number less.
fn less(number: u32) -> Result<u32, NoMemory>
    ensures { IfOk result (λ n. n + 1 ≡ number) }
{
    match number.checked_sub(1) {
        Some(less) => Ok(less),
        None => Err(NoMemory),
    }
}

// The temporary of a value, where so many stand before.
fn behind(temps: u32, value: Option<u32>) -> Result<Option<u32>, NoMemory>
    ensures { IfOk result (λ t. t ≡ option_map (λ r. temps + r) value) }
{
    match value {
        Some(temp) => Ok(Some(more(temps, temp)?)),
        None => Ok(None),
    }
}
