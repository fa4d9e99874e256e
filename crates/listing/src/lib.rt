// The listing's writers: each stores at a position of a lent slice, inside it only, and always
// advances, so that the same code measures over an empty slice and writes.
#![tactic(auto)]

pub mod children;
mod keys;
pub mod parameter;
pub mod path;
pub mod requote;
pub mod write;
pub mod writer;
