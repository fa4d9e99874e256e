// JSON literals (RFC 8259) within document 01's limits, judged byte by byte; and the inner text of
// single quotes, gone through as if it were rewritten.
#![tactic(auto)]

mod brackets;
pub mod check;
mod class;
mod mode;
mod plain;
pub mod requote;
mod string;
mod value;
