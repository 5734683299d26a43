// Parts of a store, each in its own slice: records read and written whole, and one field of a part changed.

#![tactic(auto)]

// stays: agreed, head and status each have their own read and write, since no caller takes just any record: a trait would add lines and share none

pub mod agreed;
pub mod head;
pub mod place;
pub mod proxy;
pub mod status;
