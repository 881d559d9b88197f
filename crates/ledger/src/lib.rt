// The ledger of a delivery year: its layout, whether a buffer holds one, opening it, and the walk down its accounts.

#![tactic(auto)]

pub mod ground_six;
pub mod layout;
pub mod opening;
pub mod walk;
