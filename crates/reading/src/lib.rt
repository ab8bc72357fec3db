#![tactic(auto)]

// The reading list of a row, what a store and a phase change mark by it, and the laws of both. No code.
