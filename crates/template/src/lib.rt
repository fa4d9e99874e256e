// The walk over the spans and `compile2`, after handlebars' src/template.rs.
#![tactic(auto)]

pub mod compile;
mod element;
mod frame;
mod input;
mod lines;
mod list;
mod raw;
mod reason;
pub mod refusal;
mod tag;
mod tree;
mod turn;
mod visit;
mod walk;
