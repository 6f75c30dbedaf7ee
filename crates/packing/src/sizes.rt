// The sizes that the order works with, as in specs/Sizes.antt. No other file of src/ has these numbers.
// The most rows of a master.
pub const ROWS: usize = matching::sizes::NODES;

// The bits of a number or a coordinate, which a strip stands above in a key.
pub const KEY: u32 = 16;

// The bits of a digit, and the buckets that one pass of the sort deals the rows into: one for each digit.
pub const DIGIT: u32 = 8;

pub const BUCKETS: usize = 256;

// The rows of a block, and the strips of a full master, each of as many blocks.
pub const BLOCK: usize = matching::sizes::BLOCK;

pub const SIDE: usize = 4;

// So few rows stay as they stand: they fill two blocks at most, and an order saves less than it costs.
pub const FEW: usize = 64;
