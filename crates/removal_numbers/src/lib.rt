// What a removal brings: definitions and theorems alone (specs/Purpose).
#![tactic(auto)]
