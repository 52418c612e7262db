#![tactic(auto)]

// Definitions and theorems only: the lowering, the walk, the step machine and demand 3 stand in specs/ and proofs/.
