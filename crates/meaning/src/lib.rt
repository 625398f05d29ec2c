// What a frame shows of an open value, and a finished value of the kinds that it fits: definitions and theorems only.
#![tactic(auto)]
