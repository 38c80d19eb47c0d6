// Claims: definitions and laws, no code.
#![tactic(auto)]
