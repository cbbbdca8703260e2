#![tactic(auto)]

pub mod block;
pub mod read;
pub mod refusal;
pub mod rules;
pub mod write;
