#![tactic(auto)]

// No code: the definitions in specs/ are what every rule of the store shares, and proofs/ has their laws.
