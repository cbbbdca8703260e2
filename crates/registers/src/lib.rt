#![tactic(auto)]

pub mod shared;
pub mod unit;
