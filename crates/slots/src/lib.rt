// Tables as a lent slice and a count: the first `used` slots are the table's list, and what lies past them means nothing.
// The list is `take used slots`, so a count beyond the slice's length means all of the slice. No function here asks for more.
#![tactic(auto)]

pub mod change;
pub mod count;
pub mod hit;
pub mod search;
#[cfg(test)]
mod tests;
