// The memory of a reader follows the machine that finds verdicts: definitions and theorems only.
#![tactic(auto)]
