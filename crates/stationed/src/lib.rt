#![tactic(auto)]

// The calls of the station's library are a history (specs/Stationed.antt). No code.
