// The checks of a store's parts, each on its own slice: bucket copies, a bucket's record, the bag, a proxy. Keys are held against a bound for each id.

#![tactic(auto)]

pub mod agreed;
pub mod bag;
pub mod copies;
pub mod proxies;
