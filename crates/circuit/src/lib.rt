// Gate tables: what a table means, product trees and sums. Definitions and theorems; see specs/ and proofs/.
#![tactic(auto)]
