// The way of a mapping from an item into the primary's copy, and to disk: map, savemap, done.

#![tactic(auto)]

pub mod done;
pub mod map;
pub mod savemap;
