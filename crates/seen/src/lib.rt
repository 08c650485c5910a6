#![tactic(auto)]

// No code: how the areas and the desk are seen as the machine.
