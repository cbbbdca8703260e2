#![tactic(auto)]

pub mod descriptor;
pub mod status;
