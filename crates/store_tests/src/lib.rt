#![tactic(auto)]

// Tests of the stores and the filters.
#[cfg(test)]
mod filters;
#[cfg(test)]
mod stores;
pub mod turns;
