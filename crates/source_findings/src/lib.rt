//! From the bytes of a source to what its least solution tells of its locks, its objects and its places: the answers
//! of the commands `waits` and `ranges`, with what they promise of the runs of the source; and to a certificate of that
//! solution, the answer of `certify`. How a solution is found, how circular waits, bounds and dead places are read off
//! it, and how a certificate is written and checked, the crates below know. The commands are on the usual scale; what is
//! told of a solution is so on each, and a refusal has its line on each.
//!
//! Of `int x; int y; __task(1) void t(void) { x = __input(0, 9); if (x > 20) y = 1; }` the answer of `ranges` is
//! `1:5 x 0 9`, `1:12 y 0 0`, `1:76 DEAD`, `dead 1`: no run stores to `y`.
#![tactic(auto)]

mod certificates;
mod findings;
mod laws;
mod refusal_lines;

pub use certificate_check::check_source;
pub use certificates::certificate_of;
pub use findings::{Finding, FindingReply, finding_of, told_of, told_ranges};
pub use laws::{usual_refusals_are_told_alike, written_is_certified};
pub use refusal_lines::refusal_line_on;
