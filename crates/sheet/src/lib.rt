// The proved cases of the bench sheet, in specs/. No code.
#![tactic(auto)]
