// Theorems about the bytes that the calls on an inode may change; no code.
#![tactic(auto)]
