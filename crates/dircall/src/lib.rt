// Laws of a public call that is judged whole before it works; no code.
#![tactic(auto)]
