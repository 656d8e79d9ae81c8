//! The interpreter: it goes through the calls of a task, from its first body on.
ghost use Rattle.std.specs.Prelude.{◌≡◌, ◌<◌, length, get_or, option_map, option_copied};
ghost use Rattle.tm_typed.specs.declared.scopes.ObjectNumber.TheVariants.{Local};
ghost use Rattle.tm_typed.specs.TypedTrees.{rvalue_tree, as_rvalues};
ghost use Rattle.tm_laid.specs.Layouts.{laid_tree, object_of};
ghost use Rattle.concrete_values.specs.Values.{nothing};
ghost use Rattle.concrete_values.specs.Pointers.{base};
ghost use Rattle.concrete_values.specs.Actions.{store_at};
ghost use Rattle.concrete_steps.specs.NextAction.{scalar_at, next};
ghost use Rattle.task_interpreter.specs.Runnable.{IsRunnable};
ghost use Rattle.task_interpreter.specs.reading.Direct.{gave, act_ran, values_then};
ghost use Rattle.task_interpreter.specs.reading.Direct.{arguments_ran, optional_ran, condition_ran};
ghost use Rattle.task_interpreter.specs.reading.Direct.{passed_ran, called, body_ran};
ghost use Rattle.task_interpreter.specs.reading.Lists.{leading_ran, values_at, AreEvaluated};
ghost use Rattle.task_interpreter.specs.reading.Seats.{seat_of};

use crate::answers::{Flow, Gave, acted, fell, last};
use crate::objects::{body_of, depth_of, parameter, result_of, scalar_at};
use concrete_values::{Answer, Next, base, nothing, store_at, truth_value};
use tm_laid::{Laid, callee, first_path, path_at};
use tm_terms::Place;
use tm_typed::Rvalue;

/// A call path that runs over answers. No chain of calls from it is longer than its depth.
#[derive(Clone, Copy)]
pub(crate) struct Here<'a> {
    pub laid: &'a Laid,
    pub answers: &'a [Answer],
    pub path: u32,
    pub depth: usize,
}

impl Here<'_> {
    // An action here, and its answer.
    pub(crate) fn act(self, action: Next, at: usize) -> Result<Gave, Next>
        ensures { result ≡ act_ran (laid_tree self.entry.laid.now) self.entry.answers.now action at }
    {
        acted(self.laid, self.answers, action, at)
    }

    // The last value of arguments.
    #[cycle(next)]
    #[tactic(auto, using(crate::proofs::Calls::leading_next, crate::proofs::Calls::leading_stop, crate::proofs::Sizes::argument_below))]
    fn leading(self, arguments: &[Rvalue], at: usize) -> Result<Gave, Next>
        requires runnable { IsRunnable self.laid.now }
        ensures { result ≡ leading_ran (seat_of self.entry) arguments.now (gave nothing at) }
    {
        let mut reached = Gave {
            value: nothing(),
            at,
        };
        'arguments: for argument in arguments {
            reached = given!(self.value(argument, reached.at));
        }
        Ok(reached)
    }

    // The store of an argument to the parameter of a path. The values of the arguments are not kept: where it is the
    // next action, they are evaluated once more from where they began up to that one.
    #[cycle(next)]
    #[tactic(auto, using(crate::proofs::Calls::done_alike, crate::proofs::Calls::not_done, crate::proofs::Calls::value_of_last, crate::proofs::Calls::has_value, crate::proofs::Sizes::taken_below))]
    fn argument_stored(
        self,
        path: u32,
        arguments: &[Rvalue],
        number: usize,
        place: Place,
        before: usize,
        at: usize,
    ) -> Result<Gave, Next>
        requires runnable { IsRunnable self.laid.now }
        requires within { number < length arguments.now }
        requires evaluated { AreEvaluated (seat_of self) arguments.now before }
        ensures { result ≡ act_ran (laid_tree self.entry.laid.now) self.entry.answers.now
            (store_at
            (base (laid_tree self.entry.laid.now) (object_of (laid_tree self.entry.laid.now) path (Local number)))
            (scalar_at (laid_tree self.entry.laid.now)
            (object_of (laid_tree self.entry.laid.now) path (Local number)) 0)
            (get_or (values_at (seat_of self.entry) arguments.now before) number nothing) place) at }
    {
        let object = parameter(self.laid, path, number);
        let address = base(self.laid, object);
        let scalar = scalar_at(self.laid, object, 0);
        match self.answers.get(at) {
            Some(_) => self.act(store_at(address, scalar, nothing(), place), at),
            None => {
                let value = given!(self.leading(&arguments[..=number], before));
                Err(store_at(address, scalar, value.value, place))
            }
        }
    }

    // The stores of the values of arguments to the parameters of a path.
    #[cycle(next)]
    #[tactic(auto, using(crate::proofs::Calls::passed_next, crate::proofs::Calls::passed_stop, crate::proofs::Calls::passed_end))]
    fn passed(
        self,
        path: u32,
        arguments: &[Rvalue],
        place: Place,
        before: usize,
        at: usize,
    ) -> Result<Gave, Next>
        requires runnable { IsRunnable self.laid.now }
        requires evaluated { AreEvaluated (seat_of self) arguments.now before }
        ensures { result ≡ passed_ran (laid_tree self.entry.laid.now) self.entry.answers.now path 0
            (values_at (seat_of self.entry) arguments.now before) place at }
    {
        let mut reached = at;
        'arguments: for number in 0..arguments.len() {
            let done = given!(self.argument_stored(
                path, arguments, number, place, before, reached
            ));
            reached = done.at;
        }
        Ok(Gave {
            value: nothing(),
            at: reached,
        })
    }

    // The call at a site.
    #[cycle(next)]
    #[tactic(auto, using(crate::proofs::Calls::none_evaluated, crate::proofs::Calls::not_passed, crate::proofs::Calls::passed_on, crate::proofs::Calls::are_evaluated))]
    pub(crate) fn called(
        self,
        site: u32,
        arguments: &[Rvalue],
        place: Place,
        at: usize,
    ) -> Result<Gave, Next>
        requires runnable { IsRunnable self.laid.now }
        ensures { result ≡ values_then (arguments_ran (seat_of self.entry) (as_rvalues arguments.now) at)
            (λ vs at1. called (laid_tree self.entry.laid.now) self.entry.answers.now
            (body_ran (laid_tree self.entry.laid.now) self.entry.answers.now self.entry.depth) self.entry.path site vs
            place at1) }
    {
        let last = given!(self.leading(arguments, at));
        let path = callee(self.laid, self.path, site);
        let passed = given!(self.passed(path, arguments, place, at, last.at));
        let callee = Here { path, ..self };
        callee.body(passed.at)
    }

    // The body of this path, from which calls go one less deep.
    #[cycle(next)]
    #[tactic(auto, using(crate::proofs::Bodies::body_none, crate::proofs::Bodies::no_code, crate::proofs::Bodies::some_code, crate::proofs::Bodies::body_below))]
    fn body(self, at: usize) -> Result<Gave, Next>
        requires runnable { IsRunnable self.laid.now }
        ensures { result ≡ body_ran (laid_tree self.entry.laid.now) self.entry.answers.now self.entry.depth
            self.entry.path at }
    {
        if self.depth == 0 {
            return Ok(Gave {
                value: nothing(),
                at,
            });
        }
        let inside = Here {
            depth: self.depth - 1,
            ..self
        };
        match body_of(self.laid, self.path) {
            None => Ok(Gave {
                value: nothing(),
                at,
            }),
            Some(body) => match given!(inside.block(&body.statements, at)) {
                Flow::Goes(at) => {
                    let of = result_of(self.laid, path_at(self.laid, self.path).function);
                    fell(self.laid, self.answers, of, at)
                }
                Flow::Breaks(_) => Err(Next::Misfit),
                Flow::Continues(_) => Err(Next::Misfit),
                Flow::Returns(gave) => Ok(gave),
            },
        }
    }

    // The value of an expression that may be left out.
    #[cycle(next)]
    pub(crate) fn optional(self, e: Option<&Rvalue>, at: usize) -> Result<Gave, Next>
        requires runnable { IsRunnable self.laid.now }
        ensures { result ≡ optional_ran (seat_of self.entry) (option_map rvalue_tree (option_copied e.entry)) at }
    {
        match e {
            None => Ok(Gave {
                value: nothing(),
                at,
            }),
            Some(e) => self.value(e, at),
        }
    }

    // The value of a condition; one that is left out is true.
    #[cycle(next)]
    pub(crate) fn tested(self, e: Option<&Rvalue>, at: usize) -> Result<Gave, Next>
        requires runnable { IsRunnable self.laid.now }
        ensures { result ≡ condition_ran (seat_of self.entry) (option_map rvalue_tree (option_copied e.entry)) at }
    {
        match e {
            None => Ok(Gave {
                value: truth_value(true),
                at,
            }),
            Some(e) => self.condition(e, at),
        }
    }
}

/// What a task does next after these answers: the task with this number, or, where it is the number of tasks, the
/// initial section. Condition: the layout is one of a typed file.
pub fn next(laid: &Laid, task: u32, answers: &[Answer]) -> Next
    requires runnable { IsRunnable laid.now }
    ensures { result ≡ next (laid_tree laid.now) task answers.now }
{
    let here = Here {
        laid,
        answers,
        path: first_path(laid, task),
        depth: depth_of(laid),
    };
    match here.body(0) {
        Ok(gave) => last(answers, Next::Ended, gave.at),
        Err(next) => next,
    }
}
