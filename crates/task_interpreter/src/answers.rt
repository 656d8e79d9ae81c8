//! Actions and their answers.
ghost use Rattle.std.specs.Prelude.{◌≡◌};
ghost use Rattle.tm_laid.specs.Layouts.{laid_tree};
ghost use Rattle.task_interpreter.specs.reading.Direct.{act_ran, last_at, left_at, calculated, fell};

use concrete_values::{Answer, Next, Value, answer_of, nothing};
use tm_cint::Class;
use tm_laid::Laid;
use tm_terms::Place;
use tm_typed::CType;

/// A value, and how many answers are used then.
#[derive(Clone, Copy)]
pub(crate) struct Gave {
    pub value: Value,
    pub at: usize,
}

/// The address of a cell and what it holds, and how many answers are used then.
#[derive(Clone, Copy)]
pub(crate) struct Held {
    pub address: Value,
    pub value: Value,
    pub at: usize,
}

/// Where control goes from a statement, and how many answers are used then.
#[derive(Clone, Copy)]
pub(crate) enum Flow {
    Goes(usize),
    Breaks(usize),
    Continues(usize),
    Returns(Gave),
}

/// An action, and its answer.
#[tactic(auto, unfolding(crate::specs::reading::Direct::act_ran))]
pub(crate) fn acted(laid: &Laid, answers: &[Answer], action: Next, at: usize) -> Result<Gave, Next>
    ensures { result ≡ act_ran (laid_tree laid.now) answers.now action at }
{
    match answers.get(at) {
        None => Err(action),
        Some(answer) => match answer_of(laid, action, *answer) {
            Some(value) => Ok(Gave { value, at: at + 1 }),
            None => Err(Next::Misfit),
        },
    }
}

/// What is next where nothing follows: an answer to it does not fit.
#[tactic(auto, unfolding(crate::specs::reading::Direct::last_at))]
pub(crate) fn last(answers: &[Answer], action: Next, at: usize) -> Next
    ensures { result ≡ last_at answers.now action at }
{
    match answers.get(at) {
        None => action,
        Some(_) => Next::Misfit,
    }
}

/// How many answers are left.
#[tactic(auto, unfolding(crate::specs::reading::Direct::left_at))]
pub(crate) fn left(answers: &[Answer], at: usize) -> usize
    ensures { result ≡ left_at answers.now at }
{
    answers.len().saturating_sub(at)
}

/// What an operator gives, or its error.
pub(crate) fn calculated(
    answers: &[Answer],
    found: Result<Value, Class>,
    place: Place,
    at: usize,
) -> Result<Gave, Next>
    ensures { result ≡ calculated answers.now found place at }
{
    match found {
        Ok(value) => Ok(Gave { value, at }),
        Err(class) => Err(last(answers, Next::Fault { class, place }, at)),
    }
}

/// The end of a body without `return`: any value of an integer result.
pub(crate) fn fell(laid: &Laid, answers: &[Answer], of: CType, at: usize) -> Result<Gave, Next>
    ensures { result ≡ fell (laid_tree laid.now) answers.now of at }
{
    match of {
        CType::Int(of) => {
            let (low, high) = (of.lo(), of.hi());
            acted(laid, answers, Next::Chosen { low, high }, at)
        }
        _ => Ok(Gave {
            value: nothing(),
            at,
        }),
    }
}
