//! The store that the workers of an analysis share: it lends tasks at versions of the store, takes in what their passes
//! add, and keeps a legal history of both, in any order in which the workers come. It knows nothing of what a pass
//! computes, of C, or of threads: a core is a plain value, and who calls it takes turns.
//!
//! Two workers, 0 and 1, on a program of two tasks. Task 0 adds `x = 1`, and task 1 adds `y = x + 1` for what it sees
//! of `x`. A line is a call with what is in the store after it:
//!
//! ```text
//! core.take(0)         Next: task 0, version 0    {}
//! core.take(1)         Next: task 1, version 0    {}
//! core.publish(0, ..)  version 1, raised          {x = 1}
//! core.take(0)         Next: task 0, version 1    {x = 1}           task 0 has not seen version 1 yet
//! core.publish(1, ..)  version 1                  {x = 1}           over version 0 it saw no x
//! core.take(1)         Next: task 1, version 1    {x = 1}
//! core.publish(1, ..)  version 2, raised          {x = 1, y = 2}
//! core.publish(0, ..)  version 2                  {x = 1, y = 2}
//! core.take(0)         Next: task 0, version 2    {x = 1, y = 2}
//! core.take(1)         Next: task 1, version 2    {x = 1, y = 2}
//! core.publish(0, ..)  version 2                  {x = 1, y = 2}    task 0 is settled
//! core.take(0)         Others                     {x = 1, y = 2}    task 1 is still lent
//! core.publish(1, ..)  version 2                  {x = 1, y = 2}    task 1 is settled
//! core.take(0)         AllQuiet                   {x = 1, y = 2}
//! ```
//!
//! Every order of these calls ends in this store (`legal_histories`, clause `one_end`): in place of the rounds of
//! thread-modular analysis, which pass over all tasks at once (Miné, LMCS 2012), each pass is published as it comes.
#![tactic(auto)]

mod contributions;
mod cores;
mod events;
mod laws;
mod outcomes;
mod slots;
mod snapshots;

pub use contributions::Contribution;
pub use cores::StoreCore;
pub use events::Event;
pub use laws::{every_list_of_calls, legal_histories, one_answer, quiet_kept};
pub use outcomes::{Grew, Refused, Taken};
pub use snapshots::Snapshot;
