// Theorems about what is read after a write to a file; no code.
#![tactic(auto)]
