#![tactic(auto)]

// Theorems only: the words that the lowering leaves in the workspace hold the program that the definition gives; see proofs/.
