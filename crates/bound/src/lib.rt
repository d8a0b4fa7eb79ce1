// How deep every zero test has to be, whoever made it. Definitions and theorems stand in specs/ and proofs/.
#![tactic(auto)]
