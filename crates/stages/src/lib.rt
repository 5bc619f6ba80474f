// The order in which a directory call's refusals are judged; no code.
#![tactic(auto)]
