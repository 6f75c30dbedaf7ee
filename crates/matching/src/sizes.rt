// How much code works on at a time, for every crate above this one, as in specs/Definitions/Sizes.antt.
// The farthest position from 0, either way.
pub const EDGE: i16 = 16384;

// The most nodes of a master, and the most links of two masters.
pub const NODES: usize = 512;

pub const LINKS: usize = 1023;

// The rows of both masters in one set: A's stand below HALF, B's from there on. Each sort begins with a block and has room for a row more.
pub const HALF: usize = 576;

pub const ROWS: usize = 1152;

// The rows of a block, and the blocks of the set.
pub const BLOCK: usize = 32;

pub const BLOCKS: usize = 36;

// Node numbers are below this: a key is a distance times it, plus a number.
pub const RANGE: u64 = 4294967296;
