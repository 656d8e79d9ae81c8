//! Tests of the program through its public calls alone: what no clause says of it, that each call succeeds, and that
//! its definitions mean what a reader outside expects. It knows no crate but those whose calls it makes.
//!
//! A row is a source, the number with which the program is to end, and its text: `("int x", 2, "1:5 refused Syntax")`.
//! What an analysis finds, its least solution, is told by rows of certificates: the store of `int x; int r; int
//! main(void){x=5; return 0;} __task(1) void t(void){r=10/x;}` is `w 0 0 1 i 2 2 0`, the weak entry of the task 0, with no
//! mutex held, for the cell 1, the numbers from 2 to 2 with the stride 0.
#![tactic(auto)]

#[cfg(test)]
mod alone;
#[cfg(test)]
mod answers;
#[cfg(test)]
mod certificates;
#[cfg(test)]
mod commands;
#[cfg(test)]
mod cuts;
#[cfg(test)]
mod deep_calls;
#[cfg(test)]
mod findings;
#[cfg(test)]
mod forms;
#[cfg(test)]
mod gates;
#[cfg(test)]
mod hostile;
#[cfg(test)]
mod repeated;
#[cfg(test)]
mod sizes;
#[cfg(test)]
mod solution_tables;
#[cfg(test)]
mod solutions;
