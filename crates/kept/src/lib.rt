#![tactic(auto)]

// The three demands as theorems over the definitions that the contracts cite. No code.
