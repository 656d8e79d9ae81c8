//! Laid out programs: call paths, objects, cells and abstract cells, as plain data, with the definition of which a
//! typed file has. How they are found, and what a program does with them, this crate does not know.
//!
//! In `int v[2]; void f(int a){} __task(1) void t(void){ f(1); f(2); }` there are three call paths: that of `t`, and
//! two of `f`. The objects are `v` with two cells, and the `a` of each path of `f` with one.
#![tactic(auto)]

mod cells;
mod layouts;
mod lives;
mod lookups;
mod objects;
mod paths;
mod scales;

pub use cells::{AbstractCell, LaidCell};
pub use layouts::Laid;
pub use lives::is_alive;
pub use lookups::{
    abstract_at, callee, cell_at, first_path, is_same_scalar, members_of, object_at, path_at,
    structure_cells, type_at,
};
pub use objects::{DeclaredObject, Initial, LaidObject};
pub use paths::{CallPath, Caller};
pub use scales::Scale;
pub use tm_typed::{Place, Scalar, Unary};
