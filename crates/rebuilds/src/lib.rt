// Clean maps, rebuilt blocks and tidy ones: definitions and theorems alone, in specs/ and proofs/.
#![tactic(auto)]
