// No functions: what is asked of the library and what each contract says, tied together (specs/), with the proofs (proofs/).
#![tactic(auto)]
