// A card filled in condition by condition. Definitions and theorems stand in specs/ and proofs/.
#![tactic(auto)]
