//! Words on results, and laws on lists, options and numbers, that several crates use; no code.
#![tactic(auto)]
