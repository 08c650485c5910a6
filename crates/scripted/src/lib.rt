#![tactic(auto)]

// No code: specs/ has the world behind what a script carries along, and what its lines call and print; proofs/ has the laws that a script's
// lines are a history, so that what the program prints of a read is what the history alone says.
