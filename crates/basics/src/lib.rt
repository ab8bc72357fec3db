#![tactic(auto)]

// The words in which every definition is written, and their laws. No code.
