// One address space: the calls that cores make, over any counter of nodes, and the memory that is handed over.
#![tactic(auto)]

pub mod calls;
pub mod check;
pub mod first_maps;
pub mod look;
pub mod map;
pub mod memory;
pub mod set_up;
pub mod space;
