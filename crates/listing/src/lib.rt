// What npalist prints: lines built into a buffer.

#![tactic(auto)]

pub mod blocks;
pub mod lines;
pub mod steps;
