// The checks of a table of entries and of a log, each on its own slice. Keys are held against a bound for each id.

#![tactic(auto)]

pub mod chunks;
pub mod rows;
