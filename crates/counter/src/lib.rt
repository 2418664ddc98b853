// Counters of the holders of objects: what every counter means, for any kind of object,
// and the plain count, which keeps nothing but the number of holders.
#![tactic(auto)]

pub mod bound;
pub mod clock;
pub mod count;
pub mod counter;
pub mod epoch;
pub mod kind;
pub mod plain;
#[cfg(test)]
mod tests;
