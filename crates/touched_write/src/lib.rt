// Theorems about the bytes that writing to a file may change; no code.
#![tactic(auto)]
