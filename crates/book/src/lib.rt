// This crate has definitions and laws only: what the lines of a rule book say, what loading a book gives, and when a table holds a book.
// See specs/ and proofs/.
#![tactic(auto)]
