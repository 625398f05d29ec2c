// This crate has laws of whole numbers only: see proofs/.
#![tactic(auto)]
