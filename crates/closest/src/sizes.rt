// The sizes that the join alone works with, as in specs/Sizes.antt; the others are matching's.
// The places of a chain.
pub const CHAIN: usize = 1153;

// Above every key: none, to the search.
pub const FAR: u64 = u64::MAX;
