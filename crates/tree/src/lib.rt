// The radix tree of pages: pools of numbered objects, the node table, and the walks over it.
#![tactic(auto)]

pub mod fill;
pub mod grow;
pub mod look;
pub mod lowest;
pub mod need;
pub mod pages;
pub mod pool;
pub mod slot;
pub mod table;
pub mod tell;
