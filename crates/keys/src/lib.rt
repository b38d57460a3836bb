#![tactic(auto)]

pub mod bytes;
pub mod case_key;
pub mod key;
pub mod listing;
pub mod packing;
mod row_text;
pub mod rows;
#[cfg(test)]
mod tests;
