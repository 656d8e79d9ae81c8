//! The runs of a program as the soundness theorem reads them: its configured graphs run along the next actions of its
//! tasks, and the worlds that its runs reach are the theorem's worlds. It knows no table and no store.
//!
//! A task does `x = 1; lock(m);`. After no answer its next action is the store, which the graph asks for at the node
//! with the place of that edge and the sets 0 and 0, where the temporary of the address leads to the cell of x. The
//! answer "done" leads along the edge, and by itself on to the node of the lock, which it reaches with the same sets.
//! In a run the world behind the store holds 1 in that cell; so does the theorem's world that stands for it.
#![tactic(auto)]

mod laws;

pub use laws::{
    addresses_are_kept, files_are_lowered, graphs_are_lowered, graphs_run_over_readings,
    worlds_are_images, worlds_are_plain_images,
};
