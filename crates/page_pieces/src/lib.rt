//! The pieces that pages are written from: markup, which is fixed, and texts, which are escaped. So whatever a text
//! says, it puts neither a tag nor an attribute on a page. It knows HTML, and neither alarms nor sources.
//!
//! The text `a<b>&"c.c` stands on a page as `a&lt;b&gt;&amp;&quot;c.c`.
#![tactic(auto)]

pub mod laws;
mod markup;
mod pieces;

pub use markup::Markup;
pub use pieces::{push_composed, push_markup, push_number, push_said};
