//! Tests from the text of a source on, over public calls alone: tokens, trees and refusals of the front end, typing,
//! layouts, graphs and worlds. What a layout needs for its graphs and worlds follows from its typing by laws. It holds no
//! code of its own, and it proves nothing of the crates that it calls. All rows from a source on go over one driver,
//! `stations`, and a row that fails is named by its text.
//!
//! A row of the front end is a text and what it must give, as `x = a + b * c` and the tree `xabc*+=`; one of typing is a
//! text and the line by which it is refused, as `int x;char x;` and `1:12 refused Redeclared`, or `typed`; of expressions
//! one and a declaration with its type, as `i + u` and `unsigned int want;`, or its folded value. A row of layouts is a
//! text and what it must give, as `int x;` and `paths 0 objects 1 cells 1 abstract 1`; one of graphs is a text and the
//! graph of each body: of `int x;__task(1) void t(void){x=1;}` four nodes and the edges `0>1 t0=&0; 1>2 t1=1;` and
//! `2>3 [t0]=t1 Int of 0 1:27;`: the address of the object 0, the number 1, and the store, into that object, at its
//! place. A row of worlds is a text, choices, and what they must give, as `int x; __task(1) void t(void){x=1/x;}`, the
//! choices wake 0 and run 0 0, and a picture of the world after each.
#![tactic(auto)]

#[cfg(test)]
mod expression_trees;
#[cfg(test)]
mod forms;
#[cfg(test)]
mod grammar_sources;
#[cfg(test)]
mod graph_pictures;
#[cfg(test)]
mod graph_tables;
#[cfg(test)]
mod layout_rows;
#[cfg(test)]
mod lines;
#[cfg(test)]
mod made_texts;
#[cfg(test)]
mod run_pictures;
#[cfg(test)]
mod run_programs;
#[cfg(test)]
mod run_rows;
#[cfg(test)]
mod sources;
#[cfg(test)]
mod splices;
#[cfg(test)]
mod stations;
#[cfg(test)]
mod texts;
#[cfg(test)]
mod tokens;
#[cfg(test)]
mod typed_declarations;
#[cfg(test)]
mod typed_expressions;
#[cfg(test)]
mod typing_refusals;
