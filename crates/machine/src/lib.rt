#![tactic(auto)]

// No code: specs/ has the history as an auditor has it, the plain table and the machine whose rows are lists of versions, and proofs/
// shows that an open session of the machine reads what the plain table has.
