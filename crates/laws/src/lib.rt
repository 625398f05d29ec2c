#![tactic(auto)]

// This crate has definitions and laws only: see specs/ and proofs/.
