// Demand 3, from what is known of single bytes, and what feed and close write in the lent buffer: definitions and theorems only.
#![tactic(auto)]
