// The demands as theorems over the public contracts, and the worked cases. It has no function.
#![tactic(auto)]
