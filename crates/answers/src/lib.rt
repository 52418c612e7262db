// What the generator answers: the refusals.
#![tactic(auto)]

pub mod refusals;
