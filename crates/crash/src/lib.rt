// The crash theorem: no function here runs. See specs/ for the statement, proofs/ for its proof.
#![tactic(auto)]
