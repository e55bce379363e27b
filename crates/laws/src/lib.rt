// Laws of tests and lists that the other crates cite: see specs/.
#![tactic(auto)]
