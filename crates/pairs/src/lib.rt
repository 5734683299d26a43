#![tactic(auto)]

// What holds of the pairs of a view, whatever the number of buckets: this crate is in specs/ and proofs/.
