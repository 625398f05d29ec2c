// Runs of rule books over JSON trees: definitions and theorems only.
#![tactic(auto)]
