//! What an expression becomes in the graph of its body: edges and marks, built as the definition of lowering says. In
//! place of the body of each call stands a mark. How bodies are put together, this crate does not know.
//!
//! Of `x + f(1)` there are built the address and the load of `x`; the constant, and the address and the store of the
//! parameter; a mark that names the call path of `f`, and the node from which its body goes on; and the operator behind
//! as many nodes and temporaries as that body makes.
#![tactic(auto)]

mod calls;
mod expressions;
mod forms;
mod fragments;
mod here;
mod lookups;
mod operands;
mod placing;

pub use forms::temp_of;
pub use fragments::{Call, Found, Fragment, Item, Size};
pub use here::Here;
pub use lookups::{
    callee, conversion, function_on, implied, is_comparison, is_given, is_same_place,
    is_value_type, object_of, rest_of, result_type, rvalue_place, scalar_at, type_at,
};
pub use operands::{build_condition, build_operand};
pub use placing::more;
