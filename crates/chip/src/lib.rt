#![tactic(auto)]

pub mod access;
pub mod answer;
pub mod call;
pub mod load;
pub mod prepare;
pub mod register;
pub mod reset;
pub mod search;
pub mod system;
pub mod transfer;
pub mod translation;
