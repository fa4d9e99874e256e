// Reading the input of the programs: the cards of document 01's section "Trial cards", and the decimal
// numbers and lines of stored records.
#![tactic(auto)]

pub mod input;
pub mod number;
pub mod read;
pub mod stored;
