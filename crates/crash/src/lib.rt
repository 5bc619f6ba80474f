// Theorems about runs of the block calls that are cut and recounted; no code.
#![tactic(auto)]
