// Choice rules: definitions and laws, no code.
#![tactic(auto)]
