#![tactic(auto)]

// The past of the single table, and the versions of one key held against it. Definitions and lemmas only.
