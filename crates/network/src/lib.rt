// Binary constraint networks: definitions and what holds of every network. No code.
#![tactic(auto)]
