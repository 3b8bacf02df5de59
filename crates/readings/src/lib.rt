// No functions: laws of readings, in places and in octets (specs/ and proofs/).
#![tactic(auto)]
