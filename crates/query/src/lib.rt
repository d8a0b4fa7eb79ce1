// Query cards and their tables. Definitions and theorems stand in specs/ and proofs/.
#![tactic(auto)]
