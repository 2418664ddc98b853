// Sizes of the machine. specs/Sizes.antt has the same numbers for the contracts; tables have them, or one more, as their lengths.

/// Pages are numbered from 0 and below this.
pub const PAGES: u32 = 262_144;

/// Cores are numbered from 0; at most this many are in service.
pub const CORES: u8 = 16;

/// Frames are numbered from 1 to at most this.
pub const FRAMES: usize = 1024;

/// Nodes are numbered from 1 to at most this; node 1 is the root.
pub const NODES: usize = 64;

/// The slots of a node.
pub const FANOUT: u32 = 64;
