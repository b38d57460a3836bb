#![tactic(auto)]

pub mod every;
pub mod finding;
pub mod report;
pub mod writing;
