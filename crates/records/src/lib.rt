#![tactic(auto)]

pub mod entries;
pub mod reading;
pub mod record;
pub mod report;
pub mod writing;
