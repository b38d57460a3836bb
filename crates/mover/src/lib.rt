// Moving rows from the hot table to the cold store, and clearing up after the moves and the sessions.
// Each call is lent its store's tables one by one, as the slices that its caller holds: no struct holds them together.
#![tactic(auto)]

pub mod choose;
pub mod collect;
pub mod copy;
mod due;
pub mod give_up;
pub mod moves;
pub mod settle;
pub mod sweep;
