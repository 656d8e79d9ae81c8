//! The outside of the program: where bytes come from and go to, and what may hold a worker back. A stream may fail, and
//! each counts its faults: a failure comes only where that count rose. What the operating system does behind a reader
//! or a writer it does not know.
//!
//! So a source over `b"abcdefg"` that gives at most 3 bytes a call and fails at its second call (`MemorySource`) gives
//! `abc`, `Failed` with the count 1, `def` and `g`, and then the end.
#![tactic(auto)]

mod calls;
mod gates;
mod memory_sinks;
mod memory_sources;
mod pieces;
mod sinks;
mod sources;
mod standard;
mod sure_sinks;
mod sure_sources;

pub use gates::{Gate, OpenGate};
pub use memory_sinks::MemorySink;
pub use memory_sources::MemorySource;
pub use sinks::{Sink, Stop};
pub use sources::{Failed, Source};
pub use standard::{StdSink, StdSource};
pub use sure_sinks::SureSink;
pub use sure_sources::SureSource;
