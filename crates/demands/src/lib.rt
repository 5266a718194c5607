// The three demands, each in a file of its own: theorems about the outcome definitions that the contracts cite, in specs/. No code.
#![tactic(auto)]
