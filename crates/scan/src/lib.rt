// What the seller calls ask of the lent tables, and how they change one element.
#![tactic(auto)]

pub mod edits;
pub mod look;
pub mod looked;
pub mod tables;
