// Tests on examples, and uses of interfaces that are proved from their meaning alone.
#![tactic(auto)]

pub mod banks;
#[cfg(test)]
mod refusals;
#[cfg(test)]
mod scripts;
