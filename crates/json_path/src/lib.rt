// Spans from their words, and the paths of handlebars' src/json/path.rs. Every crate above reads
// spans through these calls alone.
#![tactic(auto)]

pub mod path;
pub mod span;
