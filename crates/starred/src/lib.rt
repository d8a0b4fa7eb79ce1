// Document 01's starred cases. Definitions and theorems; see specs/ and proofs/.
#![tactic(auto)]
