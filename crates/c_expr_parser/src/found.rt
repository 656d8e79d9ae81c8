//! What the readers of expressions answer.
ghost use Rattle.std.specs.Prelude.{◌≡◌};
ghost use Rattle.tm_terms.specs.ExprTrees.{tree_of, as_arguments, height as height_of, arguments_height};

use tm_terms::{Expr, Token};

/// What was read, or the tokens from the one on at which nothing could be read.
#[derive(Drop)]
pub enum Tried<'a, T> {
    Found(T),
    Stuck(&'a [Token]),
}

/// An expression that was read, what follows it, and its height. A longer one was tried as far as `stuck`: that is
/// what follows where none was tried.
#[derive(Drop)]
pub struct Found<'a> {
    pub expr: Box<Expr>,
    pub rest: &'a [Token],
    pub stuck: &'a [Token],
    pub height: u32,
    ghost counted: { height ≡ height_of (tree_of expr.value) },
}

// The arguments of a call, what follows its `)`, and the height of the tallest.
#[derive(Drop)]
pub(crate) struct FoundArguments<'a> {
    pub(crate) items: Vec<Expr>,
    pub(crate) rest: &'a [Token],
    pub(crate) height: u32,
    ghost counted: { height ≡ arguments_height (as_arguments items.items) },
}

// An expression with one operator more, or the same where none follows that may.
#[derive(Drop)]
pub(crate) enum Stepped<'a> {
    On(Found<'a>),
    Stop(Found<'a>),
}
