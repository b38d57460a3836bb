// What the move calls ask of rows and notices, and how a notice is settled.
#![tactic(auto)]

pub mod notices;
pub mod rows;
