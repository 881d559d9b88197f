// What the programs that show figures share: words of a file as bytes, document 01's listing,
// and a line for a label and its figures.

#![tactic(auto)]

pub mod document;
pub mod layout;
pub mod print;
