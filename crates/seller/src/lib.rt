// The seller's calls on a store: open, begin, read, put, drop, commit, abandon.
// The sheet, the three tables, the cold store and the filter are the caller's, and each call is lent those it needs one by one.
#![tactic(auto)]

pub mod abandon;
mod admit;
pub mod begin;
mod closing;
pub mod commit;
pub mod drop;
mod ending;
mod ledger;
pub mod open;
pub mod put;
pub mod read;
mod undo;
