#![tactic(auto)]

mod block;
pub mod entries;
mod places;
pub mod store;
