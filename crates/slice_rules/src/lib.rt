// Slices of planned swaps, over any state, whatever may stand in a swap's way, and any plan: definitions and theorems, in specs/. No code.
#![tactic(auto)]
