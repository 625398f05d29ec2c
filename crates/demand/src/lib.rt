// Demand 3 of accepted books: definitions and theorems only.
#![tactic(auto)]
