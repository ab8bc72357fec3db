#![tactic(auto)]

// The page's twelve worked cases, proved together. No code.
