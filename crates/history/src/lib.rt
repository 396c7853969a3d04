// What holds of every list of steps from a fresh session: see specs/. There is no code here.
#![tactic(auto)]
