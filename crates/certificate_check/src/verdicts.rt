//! What may be said of bytes as a certificate.

use tm_terms::{Refusal, Report};

/// What may be said of bytes as a certificate.
#[derive(Drop)]
pub enum Verdict {
    /// They are more than a certificate may have.
    TooLong,
    /// No source stands in them, or what stands behind it is not told of tables and a store that fit its program.
    NoCertificate,
    /// The source in them is refused.
    Refused(Refusal),
    /// An edge of a body is not covered, by its number counted from 1; 0 stands for the entry. The initial section has
    /// the number of tasks.
    Uncovered { body: u32, edge: usize },
    /// Every edge is covered, and the store is not.
    UncoveredStore,
    /// The tables and the store are a solution, and this is the report of the tables.
    Certified(Report),
}
