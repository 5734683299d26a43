#![tactic(auto)]

// How values lie in words: definitions in specs/, laws in proofs/. This crate has no code.
