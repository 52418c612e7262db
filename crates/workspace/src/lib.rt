// The lent workspace: where its regions stand, its words, and the counts that are kept beside it. Assumes nothing.
#![tactic(auto)]

pub mod counts;
pub mod layout;
pub mod words;
