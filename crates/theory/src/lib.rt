// This crate has no code: specs/ has notions of the proofs, proofs/ what is proved of the definitions of crate rules.

#![tactic(auto)]
