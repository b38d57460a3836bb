#![tactic(auto)]

// The relation between a store and the history of its run, kept by every call. Definitions and lemmas only.
