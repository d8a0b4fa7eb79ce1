// The gates of one condition. Definitions and theorems stand in specs/ and proofs/.
#![tactic(auto)]
