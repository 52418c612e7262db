// The code under construction: instructions of two words in the lent workspace, jump targets and segments.
#![tactic(auto)]

pub mod segment;
