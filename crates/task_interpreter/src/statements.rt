//! Statements: declarations of local objects, blocks, loops and switches.
ghost use Rattle.std.specs.Prelude.{◌≡◌, true, option_map, option_copied, map};
ghost use Rattle.tm_typed.specs.TypedTrees.{rvalue_tree};
ghost use Rattle.tm_typed.specs.TypedStatements.{typed_tree, given_tree, local_tree, typed_case};
ghost use Rattle.tm_laid.specs.Layouts.{laid_tree, object_at};
ghost use Rattle.concrete_steps.specs.NextAction.{is_given};
ghost use Rattle.task_interpreter.specs.Runnable.{IsRunnable};
ghost use Rattle.task_interpreter.specs.reading.Direct.{cell_ran};
ghost use Rattle.task_interpreter.specs.reading.Direct.{set_ran, cells_ran, local_ran, loop_over, step_ran, turn_ran};
ghost use Rattle.task_interpreter.specs.reading.Direct.{statement_ran};
ghost use Rattle.task_interpreter.specs.reading.Lists.{is_controlled, declared_ran, listed_ran, part_ran, parts_ran};
ghost use Rattle.task_interpreter.specs.reading.Seats.{seat_of};

use crate::answers::{Flow, Gave, last, left};
use crate::interpreter::Here;
use crate::labels::{borrowed, start};
use crate::objects::{cells_of, object_of, remaining, scalar_at, zero_of};
use concrete_values::{Next, base, clear_at, is_true, nothing, part, store_at};
use tm_terms::Place;
use tm_typed::{
    GivenCell, LocalObject, ObjectNumber, Rvalue, Scalar, TypedStatement, TypedSwitchPart,
};

impl Here<'_> {
    // The value of a cell of a new object: that which is given, if the first of those that are given is of this cell.
    #[cycle(next)]
    #[tactic(auto, using(crate::proofs::Sizes::first_below))]
    fn cell_value(
        self,
        scalar: Scalar,
        given: &[GivenCell],
        cell: u32,
        at: usize,
    ) -> Result<Gave, Next>
        requires runnable { IsRunnable self.laid.now }
        ensures { result ≡ cell_ran (seat_of self.entry) scalar (is_given cell (map given_tree given.now))
            (map given_tree given.now) at }
    {
        match given.first() {
            Some(first) => {
                if first.cell == cell {
                    self.value(&first.value, at)
                } else {
                    Ok(Gave {
                        value: zero_of(scalar),
                        at,
                    })
                }
            }
            None => Ok(Gave {
                value: zero_of(scalar),
                at,
            }),
        }
    }

    // The first store to a cell of a new object.
    #[cycle(next)]
    #[tactic(auto, using(crate::proofs::Steps::run_ok, crate::proofs::Steps::run_err), unfolding(crate::specs::reading::Direct::set_ran))]
    fn cell_set(
        self,
        object: u64,
        given: &[GivenCell],
        place: Place,
        cell: u32,
        at: usize,
    ) -> Result<Gave, Next>
        requires runnable { IsRunnable self.laid.now }
        ensures { result ≡ set_ran (seat_of self.entry) object place cell (map given_tree given.now) at }
    {
        let scalar = scalar_at(self.laid, object, cell);
        let value = given!(self.cell_value(scalar, given, cell, at));
        let address = part(self.laid, cell, base(self.laid, object));
        self.act(store_at(address, scalar, value.value, place), value.at)
    }

    // The first stores to all cells of a new object.
    #[cycle(next)]
    #[tactic(auto, using(crate::proofs::Cells::cells_next, crate::proofs::Cells::cells_stop, crate::proofs::Sizes::rest_below))]
    fn cells(self, object: u64, given: &[GivenCell], place: Place, at: usize) -> Result<Gave, Next>
        requires runnable { IsRunnable self.laid.now }
        ensures { result ≡ cells_ran (seat_of self.entry) object place
            (object_at (laid_tree self.entry.laid.now) object).cells 0 (map given_tree given.now) at }
    {
        let count = cells_of(self.laid, object);
        let mut rest = given;
        let mut reached = at;
        'cells: for cell in 0..count {
            let set = given!(self.cell_set(object, rest, place, cell, reached));
            rest = remaining(rest, cell);
            reached = set.at;
        }
        Ok(Gave {
            value: nothing(),
            at: reached,
        })
    }

    // The declaration of a local object: it is cleared, and then each cell is stored where there is an initialiser.
    #[cycle(next)]
    #[tactic(auto, using(crate::proofs::Steps::run_ok, crate::proofs::Steps::run_err))]
    fn local(self, local: &LocalObject, at: usize) -> Result<Gave, Next>
        requires runnable { IsRunnable self.laid.now }
        ensures { result ≡ local_ran (seat_of self.entry) (local_tree local.now) at }
    {
        let object = object_of(self.laid, self.path, ObjectNumber::Local(local.object));
        let cleared = given!(self.act(clear_at(self.laid, object), at));
        match &local.initialiser {
            None => Ok(Gave {
                value: nothing(),
                at: cleared.at,
            }),
            Some(initialiser) => {
                self.cells(object, &initialiser.given, initialiser.place, cleared.at)
            }
        }
    }

    // Declarations of local objects, one after the other.
    #[cycle(next)]
    #[tactic(auto, using(crate::proofs::Blocks::declared_next, crate::proofs::Blocks::declared_stop, crate::proofs::Sizes::local_below))]
    fn locals(self, locals: &[LocalObject], at: usize) -> Result<Gave, Next>
        requires runnable { IsRunnable self.laid.now }
        ensures { result ≡ declared_ran (seat_of self.entry) locals.now at }
    {
        let mut reached = at;
        'locals: for local in locals {
            let declared = given!(self.local(local, reached));
            reached = declared.at;
        }
        Ok(Gave {
            value: nothing(),
            at: reached,
        })
    }

    // Statements one after the other.
    #[cycle(next)]
    #[tactic(auto, using(crate::proofs::Sizes::statement_below))]
    pub(crate) fn block(self, statements: &[TypedStatement], at: usize) -> Result<Flow, Next>
        requires runnable { IsRunnable self.laid.now }
        ensures { result ≡ listed_ran (seat_of self.entry) statements.now at }
    {
        let mut reached = at;
        'statements: for statement in statements {
            match given!(self.statement(statement, reached)) {
                Flow::Goes(next) => reached = next,
                flow => return Ok(flow),
            }
        }
        Ok(Flow::Goes(reached))
    }

    // A part of a `switch`: control passes the labels by.
    #[cycle(next)]
    fn switch_part(self, part: &TypedSwitchPart, at: usize) -> Result<Flow, Next>
        requires runnable { IsRunnable self.laid.now }
        ensures { result ≡ part_ran (seat_of self.entry) (typed_case part.now) at }
    {
        match part {
            TypedSwitchPart::Case { .. } => Ok(Flow::Goes(at)),
            TypedSwitchPart::Default { .. } => Ok(Flow::Goes(at)),
            TypedSwitchPart::Statement(statement) => self.statement(statement, at),
        }
    }

    // Parts of a `switch` one after the other.
    #[cycle(next)]
    #[tactic(auto, using(crate::proofs::Sizes::part_below))]
    fn switch_parts(self, parts: &[TypedSwitchPart], at: usize) -> Result<Flow, Next>
        requires runnable { IsRunnable self.laid.now }
        ensures { result ≡ parts_ran (seat_of self.entry) parts.now at }
    {
        let mut reached = at;
        'parts: for part in parts {
            match given!(self.switch_part(part, reached)) {
                Flow::Goes(next) => reached = next,
                flow => return Ok(flow),
            }
        }
        Ok(Flow::Goes(reached))
    }

    // A statement.
    #[cycle(next)]
    #[tactic(auto, using(crate::proofs::Blocks::block_listed, crate::proofs::Blocks::block_sized, crate::proofs::Blocks::locals_listed, crate::proofs::Blocks::locals_sized, crate::proofs::Steps::if_true, crate::proofs::Steps::if_false))]
    fn statement(self, statement: &TypedStatement, at: usize) -> Result<Flow, Next>
        requires runnable { IsRunnable self.laid.now }
        ensures { result ≡ statement_ran (seat_of self.entry) (typed_tree statement.now) at }
    {
        match statement {
            TypedStatement::Evaluate(e) => {
                let x = given!(self.optional(borrowed(e), at));
                Ok(Flow::Goes(x.at))
            }
            TypedStatement::Declare(locals) => {
                let declared = given!(self.locals(locals, at));
                Ok(Flow::Goes(declared.at))
            }
            TypedStatement::Block(statements) => self.block(statements, at),
            TypedStatement::If {
                condition,
                first,
                second,
            } => match second {
                None => {
                    let x = given!(self.condition(condition, at));
                    if is_true(x.value) {
                        self.statement(first, x.at)
                    } else {
                        Ok(Flow::Goes(x.at))
                    }
                }
                Some(second) => {
                    let x = given!(self.condition(condition, at));
                    if is_true(x.value) {
                        self.statement(first, x.at)
                    } else {
                        self.statement(second, x.at)
                    }
                }
            },
            TypedStatement::While { .. }
            | TypedStatement::Do { .. }
            | TypedStatement::For { .. }
            | TypedStatement::Switch { .. } => self.controlled(statement, at),
            TypedStatement::Break => Ok(Flow::Breaks(at)),
            TypedStatement::Continue => Ok(Flow::Continues(at)),
            TypedStatement::Return(e) => {
                let x = given!(self.optional(borrowed(e), at));
                Ok(Flow::Returns(x))
            }
            TypedStatement::Lock { mutex, place } => {
                let lock = Next::Lock {
                    mutex: *mutex,
                    place: *place,
                };
                let done = given!(self.act(lock, at));
                Ok(Flow::Goes(done.at))
            }
            TypedStatement::Unlock { mutex, place } => {
                let unlock = Next::Unlock {
                    mutex: *mutex,
                    place: *place,
                };
                let done = given!(self.act(unlock, at));
                Ok(Flow::Goes(done.at))
            }
            TypedStatement::Yield => {
                let done = given!(self.act(Next::Yield, at));
                Ok(Flow::Goes(done.at))
            }
        }
    }

    // A loop or a `switch`.
    #[cycle(next)]
    #[tactic(auto, using(crate::proofs::Blocks::switch_goes, crate::proofs::Blocks::switch_breaks, crate::proofs::Blocks::switch_continues, crate::proofs::Blocks::switch_returns, crate::proofs::Blocks::switch_stops, crate::proofs::Blocks::switch_none, crate::proofs::Blocks::switch_sized, crate::proofs::Blocks::switch_below))]
    fn controlled(self, statement: &TypedStatement, at: usize) -> Result<Flow, Next>
        requires runnable { IsRunnable self.laid.now }
        requires family { is_controlled (typed_tree statement.now) ≡ true }
        ensures { result ≡ statement_ran (seat_of self.entry) (typed_tree statement.now) at }
    {
        match statement {
            TypedStatement::While { condition, body } => {
                self.turns(Some(condition.as_ref()), body, None, None, at)
            }
            TypedStatement::Do { body, condition } => {
                self.turns(None, body, None, Some(condition.as_ref()), at)
            }
            TypedStatement::For {
                first,
                condition,
                step,
                body,
            } => match given!(self.statement(first, at)) {
                Flow::Goes(begun) => {
                    self.turns(borrowed(condition), body, borrowed(step), None, begun)
                }
                flow => Ok(flow),
            },
            TypedStatement::Switch { value, parts, .. } => {
                let x = given!(self.value(value, at));
                let rest = start(parts, x.value);
                match given!(self.switch_parts(rest, x.at)) {
                    Flow::Goes(end) => Ok(Flow::Goes(end)),
                    Flow::Breaks(end) => Ok(Flow::Goes(end)),
                    Flow::Continues(end) => Ok(Flow::Continues(end)),
                    Flow::Returns(gave) => Ok(Flow::Returns(gave)),
                }
            }
            _ => unreachable!(),
        }
    }

    // The turns of a loop. A turn that comes back to the head with no answer used spins.
    #[cycle(next)]
    #[tactic(auto, using(crate::proofs::Loops::turn_stops, crate::proofs::Loops::turn_leaves, crate::proofs::Loops::turn_continues, crate::proofs::Loops::turn_returns, crate::proofs::Loops::turn_again, crate::proofs::Loops::turn_spins))]
    fn turns(
        self,
        before: Option<&Rvalue>,
        body: &TypedStatement,
        step: Option<&Rvalue>,
        behind: Option<&Rvalue>,
        at: usize,
    ) -> Result<Flow, Next>
        requires runnable { IsRunnable self.laid.now }
        ensures { result ≡ loop_over self.entry.answers.now
            (turn_ran (seat_of self.entry) (option_map rvalue_tree (option_copied before.entry))
            (statement_ran (seat_of self.entry) (typed_tree body.now))
            (option_map rvalue_tree (option_copied step.entry))
            (option_map rvalue_tree (option_copied behind.entry))) at }
    {
        let mut head = at;
        'turns: loop {
            match given!(self.turn(before, body, step, behind, head)) {
                Flow::Goes(back) => {
                    if left(self.answers, back) < left(self.answers, head) {
                        head = back;
                    } else {
                        return Err(last(self.answers, Next::Spins, back));
                    }
                }
                Flow::Breaks(out) => return Ok(Flow::Goes(out)),
                Flow::Continues(out) => return Ok(Flow::Continues(out)),
                Flow::Returns(gave) => return Ok(Flow::Returns(gave)),
            }
        }
    }

    // One turn: it goes back to the head, breaks out of the loop, or returns.
    #[cycle(next)]
    fn turn(
        self,
        before: Option<&Rvalue>,
        body: &TypedStatement,
        step: Option<&Rvalue>,
        behind: Option<&Rvalue>,
        at: usize,
    ) -> Result<Flow, Next>
        requires runnable { IsRunnable self.laid.now }
        ensures { result ≡ turn_ran (seat_of self.entry) (option_map rvalue_tree (option_copied before.entry))
            (statement_ran (seat_of self.entry) (typed_tree body.now))
            (option_map rvalue_tree (option_copied step.entry))
            (option_map rvalue_tree (option_copied behind.entry)) at }
    {
        let x = given!(self.tested(before, at));
        if !is_true(x.value) {
            return Ok(Flow::Breaks(x.at));
        }
        match given!(self.statement(body, x.at)) {
            Flow::Goes(end) | Flow::Continues(end) => self.turn_end(step, behind, end),
            flow => Ok(flow),
        }
    }

    // The end of a turn: its step, and the condition behind the body.
    #[cycle(next)]
    #[tactic(auto, unfolding(crate::specs::reading::Direct::step_ran))]
    fn turn_end(
        self,
        step: Option<&Rvalue>,
        behind: Option<&Rvalue>,
        at: usize,
    ) -> Result<Flow, Next>
        requires runnable { IsRunnable self.laid.now }
        ensures { result ≡ step_ran (seat_of self.entry) (option_map rvalue_tree (option_copied step.entry))
            (option_map rvalue_tree (option_copied behind.entry)) at }
    {
        let stepped = given!(self.optional(step, at));
        let x = given!(self.tested(behind, stepped.at));
        if is_true(x.value) {
            Ok(Flow::Goes(x.at))
        } else {
            Ok(Flow::Breaks(x.at))
        }
    }
}
