// The prime field and the two polynomials that test a digit. Definitions and theorems; see specs/ and proofs/.
#![tactic(auto)]
