// What the books of a volume are, and what stays when they change: definitions and laws, no code.
#![tactic(auto)]
