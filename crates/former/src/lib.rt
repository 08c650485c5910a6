#![tactic(auto)]

// No code: specs/ has the checksum that document 01 had before request T-03 of document 02, and proofs/ what the open of today answers to a store that was
// sealed under it.
