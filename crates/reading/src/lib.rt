// What an opening block and an interval file say. No other crate knows where a word of them stands.

#![tactic(auto)]

pub mod block;
pub mod curve;
pub mod file;
pub mod header;
pub mod listed;
pub mod rows;
pub mod scan;
pub mod sound;
mod spans;
