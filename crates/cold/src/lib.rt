#![tactic(auto)]

pub mod halving;
pub mod sorted;
pub mod store;
