#![tactic(auto)]

pub mod read;
pub mod write;
