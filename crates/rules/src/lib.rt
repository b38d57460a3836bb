#![tactic(auto)]

pub mod answers;
pub mod cases;
pub mod horizon;
pub mod lent;
pub mod limits;
pub mod notices;
pub mod refusals;
pub mod sessions;
pub mod sheet;
pub mod tables;
pub mod times;
