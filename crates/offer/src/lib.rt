// The base table and the best step size's, within a depth cap. Definitions and theorems stand in specs/ and proofs/.
#![tactic(auto)]
