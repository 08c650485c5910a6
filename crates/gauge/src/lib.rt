#![tactic(auto)]

// No code: proofs/ has the gauge pieces P1 to P12 of document 01, shown of the rules themselves.
