// What the rules make of the rows of one interval.

#![tactic(auto)]

pub mod account;
pub mod balancing;
mod curve;
pub mod offer;
pub mod ratio;
pub mod row;
pub mod units;
