//! Notes in lines, for people and for scripts that show them: rings of tasks that may come to wait for each other,
//! races by object with all accesses, alarms of values and locks with the values of their operands, and advice on
//! these. Names stand in them byte for byte as in the source, places as LINE:COL. Where rings, races, alarms and advice
//! come from, this crate does not know.
//!
//! Where one task `a` locks `m` and then `n`, at 3:34, and another one `b` `n` and then `m`, at 4:34, the lines of the
//! rings are `3:34 RING 2`, `3:34 a holds m asks n`, `4:34 b holds n asks m`, then `4:34 RING 2` with the same lines in
//! the other order, and `rings 2`. Where `a` stores to `x`, declared at 2:5, under `m` and `b` loads it under nothing,
//! those of the races are `2:5 x RACES 2`, `3:40 a stores holds m free races`, `4:40 b loads holds free races`,
//! `races 1`. Where a task `c` of priority 7 divides 8 by an input of 0 to 3, at 5:40, those of the alarms are
//! `5:40 DIV / in int edges 1 tasks c 7`, `5:40 left 8 8 0`, `5:40 right 0 3 1`, `alarms 1`, and those of the advice
//! `5:40 DIV input right`, `. input c 0 3`, `causes 1`.
#![tactic(auto)]

mod alarm_lines;
mod alarm_operations;
mod cause_lines;
mod names;
mod operand_lines;
mod operation_words;
mod race_lines;
mod ring_lines;
mod spelling;

pub use alarm_operations::alarms_text;
pub use cause_lines::causes_text;
pub use names::{Names, ObjectName, names_of};
pub use race_lines::groups_text;
pub use ring_lines::rings_text;
