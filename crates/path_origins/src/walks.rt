//! What a walk knows.
use crate::opens::Opens;
use std::alloc::Global;
use tm_laid::Laid;

/// What an expression is wanted for.
#[derive(Clone, Copy)]
pub(crate) enum Wanted {
    Value,
    /// Its value without an implied conversion around it.
    Bare,
    Branch,
}

/// The call path of a walk: its number, how many edges the bodies of paths have, and the places of the signs `(` of the
/// source.
#[derive(Clone, Copy)]
pub(crate) struct Here<'a> {
    pub(crate) alloc: Global,
    pub(crate) laid: &'a Laid,
    pub(crate) sizes: &'a [u32],
    pub(crate) path: u32,
    pub(crate) opens: &'a Opens,
}
