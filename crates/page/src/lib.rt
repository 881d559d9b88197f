// A plant's page, step by step.

#![tactic(auto)]

pub mod account;
pub mod lines;
pub mod steps;
