// Nothing that runs: laws that several crates need, in proofs/.
#![tactic(auto)]
