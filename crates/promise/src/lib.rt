// What it is for a contract to determine an outcome: definitions for the theorems of the crates above, and no code.
#![tactic(auto)]
