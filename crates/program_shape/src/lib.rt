//! A program as the soundness theorem reads it: its tasks, its cells, and the configured copies of the edges of its
//! graphs, as a `Shape` of `tm_soundness`. It knows no analysis and no run; those that prove what is asked of a shape
//! stand above.
//!
//! A program of three tasks has the tasks `inl tt`, `inr (inl tt)` and `inr (inr tt)`, whose numbers are 2, 1 and 0.
//! The edge of a task that locks the mutex 1 has a copy at each held set and each found set: from the sets 0 and 4 it
//! leads to the sets 2 and 0. The initial section is a program of the one task `tt`.
#![tactic(auto)]

mod laws;

pub use laws::tasks_have_numbers;
