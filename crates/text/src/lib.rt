#![tactic(auto)]

pub mod lines;
pub mod numbers;
pub mod parts;
#[cfg(test)]
mod tests;
pub mod word;
pub mod words;
