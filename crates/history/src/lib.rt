#![tactic(auto)]

// No code: specs/ has the world that a station lends, one step of it for each call, and what the six theorems of demand 3 ask; proofs/
// has the theorems.
