// The words of the subject: sizes, pages, core sets, calls and faults.
// What they mean, and the flat page map, is in specs/.
#![tactic(auto)]

pub mod call;
pub mod cores;
pub mod fault;
pub mod page;
pub mod sizes;
