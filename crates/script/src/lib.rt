#![tactic(auto)]

pub mod hand;
pub mod kinds;
mod operand;
pub mod reading;
pub mod reply;
pub mod request;
#[cfg(test)]
mod tests;
pub mod writing;
