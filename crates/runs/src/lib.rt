// Runs of a circuit, and what a solver is asked of them: definitions and theorems, and no code.
#![tactic(auto)]
