// Parameters and expressions, the first part of handlebars' src/template.rs, read from the walked
// spans. Nothing is copied or kept in lists: an answer holds offsets into the text and links, numbers
// of spans from which what they denote is read again.
#![tactic(auto)]

pub mod again;
pub mod parameter;
pub mod parse;
mod value;
