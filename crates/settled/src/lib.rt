// What it means that a contract settles its call. It has no function.
#![tactic(auto)]
